// The lines behind the heading are read: contours, each with its vertices.
ghost use Rattle.sheet.specs.Reading.{ContourReady, ContourRead, VertexReady, VertexRead, LineReady, Stepped, BodyReady, BodyRead};

use crate::heading::NUMBER_MOST;
use crate::lists::Lists;
use crate::refusal::SheetRefusal;
use lines::line::read_line;

// The most that an area code may be.
const CODE_MOST: u64 = 255;

// The most contours.
const CONTOURS_MOST: usize = 32;

// The most vertices that they may declare.
const DECLARED_MOST: usize = 96;

// How many numbers a vertex has: x, y, z and its flag.
const JOB_STRIDE: usize = 4;

// The first line behind the heading.
const FIRST_LINE: u64 = 5;

// How far the reading is: the line and the place that come next, the vertices that the last contour still needs, and how
// many contours and vertices there are.
#[derive(Clone, Copy, Debug, PartialEq, Eq)]
pub struct Progress {
    pub line: u64,
    pub at: usize,
    pub due: usize,
    pub contours: usize,
    pub vertices: usize,
}

// A contour line: region, area code, length. Nothing is written of a bad one.
fn contour_line(
    text: &[u8],
    p: Progress,
    lengths: &mut [u32],
    regions: &mut [u16],
    codes: &mut [u8],
) -> Result<Progress, SheetRefusal>
    requires { ContourReady text.now p lengths.old regions.old codes.old }
    ensures { ContourRead text.now p result lengths.old regions.old codes.old lengths.new regions.new codes.new }
{
    let full = CONTOURS_MOST < p.contours + 1;
    let mosts = [NUMBER_MOST, CODE_MOST, NUMBER_MOST];
    let contour = read_line::<3>(text, p.at, b"contour", 0, &mosts).ok_or(SheetRefusal::Malformed(
        p.line,
    ))?;
    let n = contour.numbers[2] as usize;
    if full | (DECLARED_MOST < p.vertices + n) {
        return Err(SheetRefusal::TooMany(p.line));
    }
    let k = p.contours;
    lengths[k] = contour.numbers[2] as u32;
    regions[k] = contour.numbers[0] as u16;
    codes[k] = contour.numbers[1] as u8;
    Ok(Progress {
        line: p.line + 1,
        at: contour.next,
        due: n,
        contours: k + 1,
        ..p
    })
}

// A vertex line: x, y, z and flag.
fn vertex_line(text: &[u8], p: Progress, numbers: &mut [u16]) -> Result<Progress, SheetRefusal>
    requires { VertexReady text.now p numbers.old }
    ensures { VertexRead text.now p result numbers.old numbers.new }
{
    let vertex = read_line::<4>(text, p.at, b"v", 0, &[NUMBER_MOST; 4]).ok_or(
        SheetRefusal::Malformed(p.line),
    )?;
    let k = p.vertices * JOB_STRIDE;
    numbers[k] = vertex.numbers[0] as u16;
    numbers[k + 1] = vertex.numbers[1] as u16;
    numbers[k + 2] = vertex.numbers[2] as u16;
    numbers[k + 3] = vertex.numbers[3] as u16;
    Ok(Progress {
        line: p.line + 1,
        at: vertex.next,
        due: p.due - 1,
        vertices: p.vertices + 1,
        ..p
    })
}

// One line: a contour's, or a vertex's as long as one is due.
fn one_line(text: &[u8], p: Progress, lists: &mut Lists) -> Result<Progress, SheetRefusal>
    requires { LineReady text.now p lists.old.lengths lists.old.regions lists.old.codes lists.old.numbers }
    ensures { Stepped text.now p result lists.old.lengths lists.old.regions lists.old.codes lists.old.numbers lists.new.lengths lists.new.regions lists.new.codes lists.new.numbers }
{
    if p.due == 0 {
        return contour_line(
            text,
            p,
            &mut lists.lengths,
            &mut lists.regions,
            &mut lists.codes,
        );
    }
    vertex_line(text, p, &mut lists.numbers)
}

// All lines from `from` on, up to the first bad one.
pub fn read_body(text: &[u8], from: usize, lists: &mut Lists) -> Result<Progress, SheetRefusal>
    requires { BodyReady text.now from lists.old.lengths lists.old.regions lists.old.codes lists.old.numbers }
    ensures { BodyRead text.now from result lists.new.lengths lists.new.regions lists.new.codes lists.new.numbers }
{
    let mut p = Progress {
        line: FIRST_LINE,
        at: from,
        due: 0,
        contours: 0,
        vertices: 0,
    };
    while p.at < text.len() {
        p = one_line(text, p, lists)?;
    }
    if p.due > 0 {
        return Err(SheetRefusal::Malformed(p.line));
    }
    Ok(p)
}
