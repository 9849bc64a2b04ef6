// A sheet becomes a text.
ghost use Rattle.std.specs.Prelude.{◌≤◌, ◌≡◌, length, take};
ghost use Rattle.rules.specs.Sheet.{text_of};
ghost use Rattle.lines.specs.Print.{Printed};

use crate::answer::answer_job;
use crate::lists::Lists;
use crate::read::read_sheet;
use crate::rows::put_sheet_refused;

// What is printed for a sheet: its bytes in, and the text at the beginning of `out`. Any bytes may be handed in. The answer is the
// text's length.
pub fn mesh_sheet(text: &[u8], out: &mut [u8; 65536]) -> usize
    ensures printed { Printed (text_of text.now) out.old out.new 0 result }
    ensures counted { (result ≤ length out.new) × (result ≡ length (take result out.new)) }
{
    let mut lists = Lists::new();
    match read_sheet(text, &mut lists) {
        Err(refusal) => put_sheet_refused(out, refusal),
        Ok(sheet) => answer_job(
            sheet.heading,
            &lists.lengths[..sheet.contours],
            &lists.regions[..sheet.contours],
            &lists.codes[..sheet.contours],
            &lists.numbers[..sheet.vertices * 4],
            out,
        ),
    }
}
