// A sheet becomes a text: mended, or the points that it loses.
ghost use Rattle.std.specs.Prelude.{◌≤◌, ◌≡◌, length, take};
ghost use Rattle.rules.specs.MendSheet.{mend_text, lost_text};
ghost use Rattle.lines.specs.Print.{Printed};

use crate::answer::{put_losses, put_mended};
use sheet::lists::Lists;
use sheet::read::read_sheet;
use sheet::rows::put_sheet_refused;

// The sheet with its contours mended: its bytes in, and the text at the beginning of `out`. Any bytes may be handed in. The
// answer is the text's length.
pub fn mend_sheet(text: &[u8], out: &mut [u8; 65536]) -> usize
    ensures printed { Printed (mend_text text.now) out.old out.new 0 result }
    ensures counted { (result ≤ length out.new) × (result ≡ length (take result out.new)) }
{
    let mut lists = Lists::new();
    match read_sheet(text, &mut lists) {
        Err(refusal) => put_sheet_refused(out, refusal),
        Ok(sheet) => {
            let mut lengths = lists.lengths;
            let mut numbers = lists.numbers;
            put_mended(
                sheet.heading,
                &mut lengths[..sheet.contours],
                &lists.regions[..sheet.contours],
                &lists.codes[..sheet.contours],
                &mut numbers[..sheet.vertices * 4],
                out,
            )
        }
    }
}

// A line for each point that the mended sheet has lost, in the same way.
pub fn lost_sheet(text: &[u8], out: &mut [u8; 65536]) -> usize
    ensures printed { Printed (lost_text text.now) out.old out.new 0 result }
    ensures counted { (result ≤ length out.new) × (result ≡ length (take result out.new)) }
{
    let mut lists = Lists::new();
    match read_sheet(text, &mut lists) {
        Err(refusal) => put_sheet_refused(out, refusal),
        Ok(sheet) => {
            let mut copy = lists.lengths;
            let mut numbers = lists.numbers;
            put_losses(
                &lists.lengths[..sheet.contours],
                &mut copy[..sheet.contours],
                &mut numbers[..sheet.vertices * 4],
                out,
            )
        }
    }
}
