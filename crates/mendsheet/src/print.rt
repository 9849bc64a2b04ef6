// A sheet is printed: its heading, and its contours, each with its vertices.
ghost use Rattle.rules.specs.MendSheet.{traced_line, heading_text, sheet_text};
ghost use Rattle.lines.specs.Print.{Room, Printed};
ghost use Rattle.lines.specs.Pieces.{texts_from};
ghost use Rattle.sheet.specs.Reading.{sheet_of, with_lists};
ghost use Rattle.mendsheet.specs.Print.{contours_of, PointsReady, ContoursReady, SheetReady};

use sheet::heading::Heading;
use sheet::rows::{put_line, put_top};

// The heading lines, as they were read: unit, cell, nvp and grid.
fn put_heading(out: &mut [u8], x: Heading) -> usize
    requires { Room out.old (heading_text (sheet_of x)) 0 }
    ensures { Printed (heading_text (sheet_of x)) out.old out.new 0 result }
{
    let a = put_top(out, x.inches, x.size, x.height);
    let limit = [x.nvp];
    let b = put_line(out, a, b"nvp", &limit);
    let grid = [x.w, x.h, x.border];
    put_line(out, b, b"grid", &grid)
}

// The `v` lines of the vertices from `first` up to `end`.
fn put_points(out: &mut [u8], at: usize, numbers: &[u16], first: usize, end: usize) -> usize
    requires { PointsReady out.old at numbers.now first end }
    ensures { Printed (texts_from (traced_line numbers.now) first end) out.old out.new at result }
{
    let mut to = at;
    for k in first..end {
        let from = k * 4;
        to = put_line(out, to, b"v", &numbers[from..from + 4]);
    }
    to
}

// The contours: each its line, and behind it its vertices.
fn put_contours(
    out: &mut [u8],
    at: usize,
    lengths: &[u32],
    regions: &[u16],
    codes: &[u8],
    numbers: &[u16],
) -> usize
    requires { ContoursReady out.old at lengths.now regions.now codes.now numbers.now }
    ensures { Printed (contours_of lengths.now regions.now codes.now numbers.now)
        out.old out.new at result }
{
    let mut to = at;
    let mut first = 0;
    for c in 0..lengths.len() {
        let words = [regions[c] as u32, codes[c] as u32, lengths[c]];
        let end = first + lengths[c] as usize;
        to = put_line(out, to, b"contour", &words);
        to = put_points(out, to, numbers, first, end);
        first = end;
    }
    to
}

// The sheet of a heading and of the contours in these lists.
pub fn put_sheet(
    out: &mut [u8],
    x: Heading,
    lengths: &[u32],
    regions: &[u16],
    codes: &[u8],
    numbers: &[u16],
) -> usize
    requires { SheetReady out.old x lengths.now regions.now codes.now numbers.now }
    ensures { Printed (sheet_text (with_lists (sheet_of x) lengths.now regions.now codes.now numbers.now))
        out.old out.new 0 result }
{
    let a = put_heading(out, x);
    put_contours(out, a, lengths, regions, codes, numbers)
}
