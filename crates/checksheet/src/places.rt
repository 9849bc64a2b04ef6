// The vertices are read.
ghost use Rattle.checksheet.specs.Reading.{PlaceReady, PlaceRead, PlacesReady, PlacesRead};

use crate::progress::Progress;
use lines::line::read_line;
use rules::VERTEX_STRIDE;
use sheet::heading::NUMBER_MOST;
use sheet::refusal::SheetRefusal;

// The first line behind the mesh line.
const FIRST_LINE: u64 = 6;

// The line of vertex i.
fn place_line(
    text: &[u8],
    p: Progress,
    i: usize,
    vertices: &mut [u16],
) -> Result<Progress, SheetRefusal>
    requires { PlaceReady text.now p i vertices.old }
    ensures { PlaceRead text.now p result i vertices.old vertices.new }
{
    let place = read_line::<3>(text, p.at, b"v", 0, &[NUMBER_MOST; 3]).ok_or(
        SheetRefusal::Malformed(p.line),
    )?;
    let k = i * VERTEX_STRIDE;
    vertices[k] = place.numbers[0] as u16;
    vertices[k + 1] = place.numbers[1] as u16;
    vertices[k + 2] = place.numbers[2] as u16;
    Ok(Progress {
        line: p.line + 1,
        at: place.next,
    })
}

// The k lines from `from` on, up to the first bad one.
pub fn read_places(
    text: &[u8],
    from: usize,
    k: usize,
    vertices: &mut [u16],
) -> Result<Progress, SheetRefusal>
    requires { PlacesReady text.now from k vertices.old }
    ensures { PlacesRead text.now from k result vertices.new }
{
    let mut p = Progress {
        line: FIRST_LINE,
        at: from,
    };
    for i in 0..k {
        p = place_line(text, p, i, vertices)?;
    }
    Ok(p)
}
