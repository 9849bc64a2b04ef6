// A sheet becomes a file.
ghost use Rattle.std.specs.Prelude.{◌≤◌, ◌≡◌, length, take};
ghost use Rattle.rules.specs.StlText.{stl_text};
ghost use Rattle.lines.specs.Print.{Printed};

use crate::answer::carve_job;
use sheet::lists::Lists;
use sheet::read::read_sheet;
use sheet::rows::put_sheet_refused;

// What is written for a sheet: its bytes in, and the file, or the refusal's line, at the beginning of `out`. Any bytes may be handed in.
// The answer is its length.
pub fn stl_sheet(text: &[u8], out: &mut [u8; 65536]) -> usize
    ensures printed { Printed (stl_text text.now) out.old out.new 0 result }
    ensures counted { (result ≤ length out.new) × (result ≡ length (take result out.new)) }
{
    let mut lists = Lists::new();
    match read_sheet(text, &mut lists) {
        Err(refusal) => put_sheet_refused(out, refusal),
        Ok(sheet) => carve_job(
            sheet.heading,
            &lists.lengths[..sheet.contours],
            &lists.regions[..sheet.contours],
            &lists.codes[..sheet.contours],
            &lists.numbers[..sheet.vertices * 4],
            out,
        ),
    }
}
