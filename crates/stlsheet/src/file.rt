// A stored mesh becomes a file.
ghost use Rattle.std.specs.Prelude.{length};
ghost use Rattle.lines.specs.Print.{Printed};
ghost use Rattle.stlsheet.specs.Carving.{CarveReady, carved_in};

use plane::unit::thousandths;
use rules::VERTEX_STRIDE;
use sheet::heading::Heading;
use sheet::rows::put_refused;
use stl::header::{FACET_BYTES, FRONT_BYTES};
use stl::numbers::{stl_refusal_number, stl_refusal_second};
use stl::write_stl;

// The file of the mesh of n polygons and k vertices that stands in the buffers, or a refusal's line. The answer is its length.
pub fn put_carved(
    x: Heading,
    n: usize,
    k: usize,
    vertices: &[u16],
    polygons: &[u16],
    neighbours: &[u32],
    out: &mut [u8],
) -> usize
    requires { CarveReady x n k vertices.now polygons.now neighbours.now out.old }
    ensures { Printed (carved_in x n k vertices.now polygons.now neighbours.now (length out.old))
        out.old out.new 0 result }
{
    let rows = n * x.nvp as usize;
    let size = thousandths(x.size);
    let height = thousandths(x.height);
    let reply = write_stl(
        x.nvp,
        x.inches,
        size,
        height,
        &vertices[..k * VERTEX_STRIDE],
        &polygons[..rows],
        &neighbours[..rows],
        out,
    );
    match reply {
        Ok(facets) => FRONT_BYTES + facets as usize * FACET_BYTES,
        Err(refusal) => {
            put_refused(
                out,
                stl_refusal_number(refusal),
                stl_refusal_second(refusal),
            )
        }
    }
}
