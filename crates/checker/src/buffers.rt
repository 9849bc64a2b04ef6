// 40: buffers that agree in count, and numbers within 01's limits.
ghost use Rattle.std.specs.Prelude.{◌≡◌, ◌+◌, ◌*◌, ◌≤◌, length};
ghost use Rattle.rules.specs.Checks.{vertex_stride, is_high};
ghost use Rattle.rules.specs.Handed.{buffers_hold};
ghost use Rattle.checker.specs.Asked.{handed};
ghost use Rattle.stored.specs.Stored.{vertex_in};
ghost use Rattle.checker.specs.Steps.{grid_holds};

use crate::mesh::Mesh;
use rules::VERTEX_STRIDE;

// "over 65,535 vertices or polygons" are refused.
const COUNT_MOST: usize = 65535;

// Whether x or z of vertex k is above 32,767.
fn is_high(vertices: &[u16], k: usize) -> bool
    requires { k * vertex_stride + vertex_stride ≤ length vertices.now }
    ensures { result ≡ is_high (vertex_in vertices.now k) }
{
    let at = k * VERTEX_STRIDE;
    (32767 < vertices[at]) | (32767 < vertices[at + 2])
}

// Whether that is so of none of n vertices.
fn are_in_grid(vertices: &[u16], n: usize) -> bool
    requires { n * vertex_stride ≤ length vertices.now }
    ensures { result ≡ grid_holds vertices.now n }
{
    (0..n).all(|k| !is_high(vertices, k))
}

// Whether 40 passes. nvp comes first, since the polygons are counted by it; then the counts, so that no product wraps.
pub fn buffers_hold(mesh: &Mesh<'_>) -> bool
    ensures { result ≡ buffers_hold (handed mesh.now) }
{
    if (mesh.nvp < 3) | (12 < mesh.nvp) {
        return false;
    }
    let nv = mesh.vertices.len() / VERTEX_STRIDE;
    let np = mesh.polygons.len() / mesh.nvp;
    if (COUNT_MOST < nv) | (COUNT_MOST < np) {
        return false;
    }
    let whole = (mesh.vertices.len() == nv * VERTEX_STRIDE)
        & (mesh.polygons.len() == np * mesh.nvp);
    if whole & (mesh.links.len() == mesh.polygons.len()) {
        return are_in_grid(mesh.vertices, nv);
    }
    false
}
