// The lines of lost points are printed.
ghost use Rattle.std.specs.Prelude.{◌≡◌, ◌≤◌, length};
ghost use Rattle.rules.specs.MendSheet.{contour_lines_above, lost_line};
ghost use Rattle.lines.specs.Print.{Printed};
ghost use Rattle.mendsheet.specs.Print.{lost_text_of, LostLineReady, LostReady};

use lines::cells::put_cell;
use lines::print::put_text;

// The lines above the first contour's: unit, cell, nvp and grid.
const HEADING_LINES: u64 = 4;

// How many contour lines stand above vertex k, of contours of these lengths.
fn contours_above(lengths: &[u32], k: u32) -> usize
    ensures { (result ≡ contour_lines_above lengths.now k) × (result ≤ length lengths.now) }
{
    let mut rest = k;
    for c in 0..lengths.len() {
        if rest < lengths[c] {
            return c + 1;
        }
        rest -= lengths[c];
    }
    lengths.len()
}

// The line of the lost vertex k: its number, and its line in the sheet.
fn put_lost_line(out: &mut [u8], at: usize, lengths: &[u32], k: u32) -> usize
    requires { LostLineReady out.old at lengths.now k }
    ensures { Printed (lost_line lengths.now k) out.old out.new at result }
{
    let above = contours_above(lengths, k) as u64;
    let line = HEADING_LINES + above + k as u64 + 1;
    let a = put_text(out, at, b"lost");
    let b = put_cell(out, a, k as u64);
    let e = put_cell(out, b, line);
    out[e] = b'\n';
    e + 1
}

// A line for each vertex that was lost, of contours of these lengths.
pub fn put_lost(out: &mut [u8], lengths: &[u32], lost: &[u32]) -> usize
    requires { LostReady out.old lengths.now lost.now }
    ensures { Printed (lost_text_of lengths.now lost.now) out.old out.new 0 result }
{
    let mut to = 0;
    for k in lost {
        to = put_lost_line(out, to, lengths, *k);
    }
    to
}
