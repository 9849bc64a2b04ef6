// All that is behind the mesh line is read.
ghost use Rattle.checksheet.specs.Reading.{ListsReady, ListsRead};

use crate::places::read_places;
use crate::polygons::read_polygons;
use sheet::refusal::SheetRefusal;

// The lines of k vertices and n polygons, from `from` on; no line may follow.
pub fn read_lists(
    text: &[u8],
    from: usize,
    words: usize,
    k: usize,
    n: usize,
    vertices: &mut [u16],
    polygons: &mut [u16],
    links: &mut [u32],
) -> Result<(), SheetRefusal>
    requires { ListsReady text.now from words k n vertices.old polygons.old links.old }
    ensures { ListsRead text.now from words k n result vertices.new polygons.new links.new }
{
    let p = read_places(text, from, k, vertices)?;
    let end = read_polygons(text, p, words, n, polygons, links)?;
    if end.at < text.len() {
        return Err(SheetRefusal::Malformed(end.line));
    }
    Ok(())
}
