// 43: each open side bears what R7 gives.
ghost use Rattle.std.specs.Prelude.{◌≡◌, cond, ◌/◌, ◌<◌, ltb, length};
ghost use Rattle.rules.specs.Mesh.{place_of};
ghost use Rattle.rules.specs.Links.{none};
ghost use Rattle.rules.specs.Portals.{portal_of};
ghost use Rattle.rules.specs.Checks.{vertex_stride};
ghost use Rattle.rules.specs.Handed.{polygon_count, all_of, first_fault, Consistent};
ghost use Rattle.rules.specs.Checker.{portals_hold};
ghost use Rattle.checker.specs.Asked.{handed, unclaimed};
ghost use Rattle.checker.specs.Steps.{vertices_in, side_bears, SidesReady};

use crate::ends::corners_end;
use crate::mesh::Mesh;
use links::portals::portal_of;
use plane::ring::next;
use records::polygon::NONE;
use rules::{Grid, Point, VERTEX_STRIDE};

// The place of vertex c.
fn place_at(vertices: &[u16], c: u16) -> Point
    requires { c < length vertices.now / vertex_stride }
    ensures { result ≡ place_of (vertices_in vertices.now) c }
{
    let at = usize::from(c) * VERTEX_STRIDE;
    Point {
        x: vertices[at],
        z: vertices[at + 2],
    }
}

// What R7 gives an open side from vertex a to vertex b: a portal or none; and none if the border is 0.
fn open_link(vertices: &[u16], grid: Grid, a: u16, b: u16) -> u32
    requires { (a < length vertices.now / vertex_stride) × (b < length vertices.now / vertex_stride) }
    ensures { result ≡ cond (ltb 0 grid.border)
        (portal_of grid.w grid.h (place_of (vertices_in vertices.now) a) (place_of (vertices_in vertices.now) b)) none }
{
    if 0 < grid.border {
        let p = place_at(vertices, a);
        let q = place_at(vertices, b);
        return portal_of(grid.w, grid.h, p, q);
    }
    NONE
}

// Whether side j of a polygon, whose corners are `own` and whose links are `mine`, is not open, or bears what R7 gives.
fn side_bears(vertices: &[u16], grid: Grid, own: &[u16], mine: &[u32], j: usize) -> bool
    requires { SidesReady vertices.now own.now mine.now × (j < length own.now) }
    ensures { result ≡ side_bears vertices.now grid.w grid.h grid.border own.now mine.now j }
{
    let l = mine[j];
    if l < NONE {
        return true;
    }
    let e = next(j, own.len());
    l == open_link(vertices, grid, own[j], own[e])
}

// Whether that is so of each of its sides.
fn sides_bear(vertices: &[u16], grid: Grid, own: &[u16], mine: &[u32]) -> bool
    requires { SidesReady vertices.now own.now mine.now }
    ensures { result ≡ all_of (side_bears vertices.now grid.w grid.h grid.border own.now mine.now) 0 (length own.now) }
{
    (0..own.len()).all(|j| side_bears(vertices, grid, own, mine, j))
}

// Whether polygon i passes.
fn portals_hold(mesh: &Mesh<'_>, grid: Grid, i: usize) -> bool
    requires { Consistent (handed mesh.now)
        × (i < polygon_count (handed mesh.now)) }
    ensures { result ≡ portals_hold (unclaimed mesh.now grid) i }
{
    let from = i * mesh.nvp;
    let to = corners_end(mesh.nvp, mesh.polygons, i);
    sides_bear(
        mesh.vertices,
        grid,
        &mesh.polygons[from..to],
        &mesh.links[from..to],
    )
}

// The first of np polygons that doesn't.
pub fn first_bad_portals(mesh: &Mesh<'_>, np: usize, grid: Grid) -> Option<usize>
    requires { Consistent (handed mesh.now)
        × (np ≡ polygon_count (handed mesh.now)) }
    ensures { result ≡ first_fault (portals_hold (unclaimed mesh.now grid)) np }
{
    (0..np).find(|i| !portals_hold(mesh, grid, *i))
}
