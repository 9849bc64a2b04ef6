// The facets of polygons: a fan from the first corner of each.
ghost use Rattle.std.specs.Prelude.{◌≡◌};
ghost use Rattle.rules.specs.Stl.{facet_count};
ghost use Rattle.lines.specs.Print.{Printed};
ghost use Rattle.stl.specs.Steps.{polygons_in, fan_bytes, facets_bytes, FanReady, CountReady, FacetsReady};

use crate::header::FACET_BYTES;
use crate::points::put_facet;
use crate::scale::Lengths;
use checker::mesh::Mesh;
use stored::corners::count_corners;
use stored::vertices::vertex_at;

// How many facets np polygons of a mesh have: for each two fewer than its corners.
pub fn count_facets(mesh: &Mesh<'_>, np: usize) -> usize
    requires { CountReady mesh.now.nvp np mesh.now.polygons.now }
    ensures { result ≡ facet_count (polygons_in mesh.now.nvp np mesh.now.polygons.now) }
{
    let mut n = 0;
    for i in 0..np {
        let from = i * mesh.nvp;
        n += count_corners(&mesh.polygons[from..from + mesh.nvp]) - 2;
    }
    n
}

// The facets of the polygon with these corners, from `at` on. The answer is the place behind them.
fn put_fan(out: &mut [u8], at: usize, lengths: Lengths, vertices: &[u16], corners: &[u16]) -> usize
    requires { FanReady lengths.size lengths.height vertices.now corners.now out.old at }
    ensures { Printed (fan_bytes lengths.size lengths.height vertices.now corners.now) out.old out.new at result }
{
    let first = vertex_at(vertices, corners[0]);
    let mut to = at;
    for k in 2..corners.len() {
        let b = vertex_at(vertices, corners[k - 1]);
        let c = vertex_at(vertices, corners[k]);
        put_facet(out, to, first, b, c, lengths);
        to += FACET_BYTES;
    }
    to
}

// The facets of np polygons of a mesh, from `at` on. The answer is the place behind them.
pub fn put_facets(out: &mut [u8], at: usize, lengths: Lengths, mesh: &Mesh<'_>, np: usize) -> usize
    requires { FacetsReady lengths.size lengths.height mesh.now.nvp np mesh.now.vertices.now mesh.now.polygons.now out.old at }
    ensures { Printed (facets_bytes lengths.size lengths.height mesh.now.nvp np mesh.now.vertices.now mesh.now.polygons.now) out.old out.new at result }
{
    let mut to = at;
    for i in 0..np {
        let from = i * mesh.nvp;
        let c = count_corners(&mesh.polygons[from..from + mesh.nvp]);
        to = put_fan(
            out,
            to,
            lengths,
            mesh.vertices,
            &mesh.polygons[from..from + c],
        );
    }
    to
}
