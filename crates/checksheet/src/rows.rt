// A polygon's two lines are read.
ghost use Rattle.std.specs.Prelude.{◌≡◌, ◌-◌};
ghost use Rattle.rules.specs.Lines.{tab_byte, parts};
ghost use Rattle.checksheet.specs.Reading.{CornersReady, CornersRead, RowAtReady, LinksRead, PolygonRead, PolygonReady};

use crate::padding::put_row;
use crate::progress::Progress;
use lines::numbers::read_row;
use lines::scan::find;
use lines::tabs::count_cells;
use sheet::heading::NUMBER_MOST;
use sheet::refusal::SheetRefusal;

// The most that an area code may be.
const CODE_MOST: u64 = 255;

// The most that a link may be.
const LINK_MOST: u64 = 4294967295;

// How many cells of a `p` line are corners: those behind its name, the region and the area code.
fn beyond(cells: usize) -> usize
    ensures { result ≡ cells - 3 }
{
    if cells > 3 {
        return cells - 3;
    }
    0
}

// How many corners a `p` line has, if it is good and they are at most `most`: its numbers go to the beginning of `values`, the corners behind region and area code.
fn corner_cells(line: &[u8], most: usize, values: &mut [u64]) -> Option<usize>
    requires { CornersReady most values.old }
    ensures { CornersRead most (parts tab_byte line.now) result values.old values.new }
{
    let cells = count_cells(line);
    if cells <= 3 + most {
        let n = beyond(cells);
        let mut mosts = [NUMBER_MOST; 14];
        mosts[1] = CODE_MOST;
        if read_row(line, b"p", 0, &mosts[..n + 2], values) {
            return Some(n);
        }
    }
    None
}

// The `n` line of polygon i, which has n corners.
fn link_line(
    text: &[u8],
    p: Progress,
    words: usize,
    i: usize,
    n: usize,
    links: &mut [u32],
) -> Result<Progress, SheetRefusal>
    requires { RowAtReady text.now p words i n links.old }
    ensures { LinksRead text.now p result words i n links.old links.new }
{
    let from = p.at;
    let e = find(text, from, b'\n');
    if e >= text.len() {
        return Err(SheetRefusal::Malformed(p.line));
    }
    let mosts = [LINK_MOST; 12];
    let mut values = [0u64; 12];
    if read_row(&text[from..e], b"n", 0, &mosts[..n], &mut values) {
        put_row(links, i * words, words, &values[..n]);
        return Ok(Progress {
            line: p.line + 1,
            at: e + 1,
        });
    }
    Err(SheetRefusal::Malformed(p.line))
}

// The two lines of polygon i, whose corners have so many words.
pub fn polygon_lines(
    text: &[u8],
    p: Progress,
    words: usize,
    i: usize,
    polygons: &mut [u16],
    links: &mut [u32],
) -> Result<Progress, SheetRefusal>
    requires { PolygonReady text.now p words i polygons.old links.old }
    ensures { PolygonRead text.now p result words i polygons.old links.old polygons.new links.new }
{
    let from = p.at;
    let e = find(text, from, b'\n');
    if e >= text.len() {
        return Err(SheetRefusal::Malformed(p.line));
    }
    let mut values = [0u64; 14];
    let n = corner_cells(&text[from..e], words, &mut values).ok_or(SheetRefusal::Malformed(
        p.line,
    ))?;
    put_row(polygons, i * words, words, &values[2..n + 2]);
    let next = Progress {
        line: p.line + 1,
        at: e + 1,
    };
    link_line(text, next, words, i, n, links)
}
