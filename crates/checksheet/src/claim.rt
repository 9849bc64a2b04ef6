// All that is behind the heading is read.
ghost use Rattle.std.specs.Prelude.{◌≡◌};
ghost use Rattle.rules.specs.CheckSheet.{row_words};
ghost use Rattle.checksheet.specs.Claims.{MeshReady, MeshRead};

use crate::counts::{MeshLine, mesh_cells};
use crate::lists::read_lists;
use lines::scan::find;
use sheet::heading::Heading;
use sheet::refusal::SheetRefusal;

// The mesh line.
const MESH_LINE: u64 = 5;

// How many words a polygon's corners have.
pub fn row_words(nvp: u32) -> usize
    ensures { result ≡ row_words nvp }
{
    if nvp <= 12 {
        return nvp as usize;
    }
    12
}

// What is behind the heading x, as its mesh line counts it. The lists have room for 8,192 vertices and polygons.
pub fn read_mesh(
    text: &[u8],
    x: Heading,
    vertices: &mut [u16],
    polygons: &mut [u16],
    links: &mut [u32],
) -> Result<MeshLine, SheetRefusal>
    requires { MeshReady text.now x vertices.old polygons.old links.old }
    ensures { MeshRead text.now x result vertices.new polygons.new links.new }
{
    let from = x.at;
    let e = find(text, from, b'\n');
    if e >= text.len() {
        return Err(SheetRefusal::Malformed(MESH_LINE));
    }
    let mesh = mesh_cells(&text[from..e]).ok_or(SheetRefusal::Malformed(MESH_LINE))?;
    let words = row_words(x.nvp);
    read_lists(
        text,
        e + 1,
        words,
        mesh.places,
        mesh.polygons,
        vertices,
        polygons,
        links,
    )?;
    Ok(mesh)
}
