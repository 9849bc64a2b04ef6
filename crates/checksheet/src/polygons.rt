// The polygons are read.
ghost use Rattle.checksheet.specs.Reading.{PolygonsReady, PolygonsRead};

use crate::progress::Progress;
use crate::rows::polygon_lines;
use sheet::refusal::SheetRefusal;

// The lines of n polygons, up to the first bad one.
pub fn read_polygons(
    text: &[u8],
    first: Progress,
    words: usize,
    n: usize,
    polygons: &mut [u16],
    links: &mut [u32],
) -> Result<Progress, SheetRefusal>
    requires { PolygonsReady text.now first words n polygons.old links.old }
    ensures { PolygonsRead text.now first result words n polygons.new links.new }
{
    let mut p = first;
    for i in 0..n {
        p = polygon_lines(text, p, words, i, polygons, links)?;
    }
    Ok(p)
}
