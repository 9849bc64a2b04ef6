// 42, polygon by polygon: the links of its sides hold, and past its last corner they are 65,535.
ghost use Rattle.std.specs.Prelude.{◌≡◌, ◌<◌, length};
ghost use Rattle.rules.specs.Handed.{polygon_count, mesh_in, all_of, first_fault, link_holds, links_hold};
ghost use Rattle.checker.specs.Asked.{linked};
ghost use Rattle.checker.specs.Steps.{RowsReady, PolygonAt};

use crate::ends::corners_end;
use crate::mesh::Mesh;
use crate::sides::link_holds;
use records::polygon::NONE;

// Whether the link of each side of polygon i holds; `own` are its corners, and `mine` its links.
fn sides_hold(mesh: &Mesh<'_>, np: usize, i: usize, own: &[u16], mine: &[u32]) -> bool
    requires { PolygonAt (linked mesh.now) np i own.now mine.now }
    ensures { result ≡ all_of (link_holds (mesh_in (linked mesh.now)) i) 0 (length own.now) }
{
    (0..own.len()).all(|j| link_holds(mesh, np, i, own, mine, j))
}

// Whether the links of polygon i pass.
fn links_hold(mesh: &Mesh<'_>, np: usize, i: usize) -> bool
    requires { RowsReady (linked mesh.now) × (np ≡ polygon_count (linked mesh.now)) × (i < np) }
    ensures { result ≡ links_hold (linked mesh.now) i }
{
    let from = i * mesh.nvp;
    let to = corners_end(mesh.nvp, mesh.polygons, i);
    sides_hold(mesh, np, i, &mesh.polygons[from..to], &mesh.links[from..to])
        && mesh.links[to..from + mesh.nvp]
            .iter()
            .all(|link| *link == NONE)
}

// The first of np polygons whose links don't.
pub fn first_bad_links(mesh: &Mesh<'_>, np: usize) -> Option<usize>
    requires { RowsReady (linked mesh.now) × (np ≡ polygon_count (linked mesh.now)) }
    ensures { result ≡ first_fault (links_hold (linked mesh.now)) np }
{
    (0..np).find(|i| !links_hold(mesh, np, *i))
}
