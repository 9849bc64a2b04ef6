// A printed mesh becomes a text.
ghost use Rattle.std.specs.Prelude.{◌≤◌, ◌≡◌, length, take};
ghost use Rattle.rules.specs.CheckSheet.{check_text};
ghost use Rattle.lines.specs.Print.{Printed};
ghost use Rattle.checksheet.specs.Answer.{LinesReady, lines_text};

use crate::answer::put_answer;
use crate::claim::{read_mesh, row_words};
use rules::VERTEX_STRIDE;
use sheet::heading::{Heading, read_heading};
use sheet::refusal::SheetRefusal;
use sheet::rows::put_sheet_refused;

// What is behind the heading x: its lists, and the verdict on them.
fn check_lines(text: &[u8], x: Heading, out: &mut [u8]) -> usize
    requires { LinesReady text.now x out.old }
    ensures { Printed (lines_text text.now x) out.old out.new 0 result }
{
    let mut vertices = [0u16; 24576];
    let mut polygons = [0u16; 98304];
    let mut links = [0u32; 98304];
    match read_mesh(text, x, &mut vertices, &mut polygons, &mut links) {
        Err(refusal) => put_sheet_refused(out, refusal),
        Ok(mesh) => {
            let rows = mesh.polygons * row_words(x.nvp);
            put_answer(
                x,
                mesh.total,
                &vertices[..mesh.places * VERTEX_STRIDE],
                &polygons[..rows],
                &links[..rows],
                out,
            )
        }
    }
}

// What is printed for a mesh: its bytes in, and the text at the beginning of `out`. Any bytes may be handed in. The answer is
// the text's length.
pub fn check_sheet(text: &[u8], out: &mut [u8; 65536]) -> usize
    ensures printed { Printed (check_text text.now) out.old out.new 0 result }
    ensures counted { (result ≤ length out.new) × (result ≡ length (take result out.new)) }
{
    if text.len() > 65536 {
        return put_sheet_refused(out, SheetRefusal::TooLong);
    }
    match read_heading(text) {
        Err(refusal) => put_sheet_refused(out, refusal),
        Ok(x) => check_lines(text, x, out),
    }
}
