// The vertices go out: x, y and z of each.
ghost use Rattle.std.specs.Prelude.{◌≡◌};
ghost use Rattle.mem.specs.Slice.{splice};
ghost use Rattle.mem.specs.Packed.{packed};
ghost use Rattle.rules.specs.Exits.{vertex_words};
ghost use Rattle.records.specs.Layout.{vertices_at};
ghost use Rattle.outputs.specs.Ready.{VerticesReady};

use crate::store::Places;
use records::vertex::VERTEX_SIZE;
use rules::VERTEX_STRIDE;

// The vertices go to the beginning of out.
pub fn copy_vertices(work: &[u32], at: Places, out: &mut [u16])
    requires { VerticesReady work.now at.vertices.at at.vertices.n out.old }
    ensures { out.new ≡ splice out.old 0 (packed vertex_words (vertices_at work.now at.vertices.at at.vertices.n)) }
{
    for k in 0..at.vertices.n {
        let from = at.vertices.at + k * VERTEX_SIZE;
        let to = k * VERTEX_STRIDE;
        out[to] = work[from] as u16;
        out[to + 1] = work[from + 1] as u16;
        out[to + 2] = work[from + 2] as u16;
    }
}
