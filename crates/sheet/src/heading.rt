// The heading lines are read: unit, cell, nvp, grid.
ghost use Rattle.std.specs.Prelude.{◌≡◌, ◌≤◌, length, drop};
ghost use Rattle.rules.specs.Lines.{lines_of};
ghost use Rattle.rules.specs.Sheet.{read_heading};
ghost use Rattle.sheet.specs.Reading.{UnitIs, from_cell, headed_as, BehindIs, Behind};

use crate::refusal::SheetRefusal;
use lines::line::read_line;
use lines::scan::{find, is_same_text};

// The most that a number may be.
pub const NUMBER_MOST: u64 = 65535;

// The most thousandths that a cell may have.
const CELL_MOST: u64 = 16777216;

// What the heading says, and the place behind it.
#[derive(Clone, Copy, Debug, PartialEq, Eq)]
pub struct Heading {
    pub inches: bool,
    pub size: u32,
    pub height: u32,
    pub nvp: u32,
    pub w: u16,
    pub h: u16,
    pub border: u16,
    pub at: usize,
}

// The first line: whether the unit is inches, and the place behind it. Its cells are `unit` and a unit if it is one of two texts.
fn read_unit(text: &[u8]) -> Option<(bool, usize)>
    ensures { UnitIs text.now result }
{
    let e = find(text, 0, b'\n');
    if e < text.len() {
        if is_same_text(&text[..e], b"unit\tmm") {
            return Some((false, e + 1));
        }
        if is_same_text(&text[..e], b"unit\tin") {
            return Some((true, e + 1));
        }
    }
    None
}

// The lines behind it, the first of which begins at `from`.
fn read_rest(text: &[u8], inches: bool, from: usize) -> Result<Heading, SheetRefusal>
    requires { from ≤ length text.now }
    ensures { (from_cell inches (lines_of (drop from text.now)) ≡ headed_as result)
        × BehindIs text.now (drop 3 (lines_of (drop from text.now))) result }
{
    let cell = read_line::<2>(text, from, b"cell", 1, &[CELL_MOST; 2]).ok_or(
        SheetRefusal::Malformed(2),
    )?;
    let limit = read_line::<1>(text, cell.next, b"nvp", 0, &[NUMBER_MOST]).ok_or(
        SheetRefusal::Malformed(3),
    )?;
    let grid = read_line::<3>(text, limit.next, b"grid", 0, &[NUMBER_MOST; 3]).ok_or(
        SheetRefusal::Malformed(4),
    )?;
    Ok(Heading {
        inches,
        size: cell.numbers[0] as u32,
        height: cell.numbers[1] as u32,
        nvp: limit.numbers[0] as u32,
        w: grid.numbers[0] as u16,
        h: grid.numbers[1] as u16,
        border: grid.numbers[2] as u16,
        at: grid.next,
    })
}

// The heading of a sheet, or the refusal at its first bad line.
pub fn read_heading(text: &[u8]) -> Result<Heading, SheetRefusal>
    ensures { (read_heading (lines_of text.now) ≡ headed_as result) × Behind text.now result }
{
    let (inches, at) = read_unit(text).ok_or(SheetRefusal::NoUnit)?;
    read_rest(text, inches, at)
}
