// The vertices of a stored mesh.
ghost use Rattle.std.specs.Prelude.{◌≡◌, ◌+◌, ◌*◌, ◌<◌, length};
ghost use Rattle.rules.specs.Checks.{vertex_stride};
ghost use Rattle.stored.specs.Stored.{vertex_in};

use rules::{VERTEX_STRIDE, Vertex};

// The vertex of number k.
pub fn vertex_at(vertices: &[u16], k: u16) -> Vertex
    requires { k * vertex_stride + 2 < length vertices.now }
    ensures { result ≡ vertex_in vertices.now k }
{
    let at = usize::from(k) * VERTEX_STRIDE;
    Vertex {
        x: vertices[at],
        y: vertices[at + 1],
        z: vertices[at + 2],
    }
}
