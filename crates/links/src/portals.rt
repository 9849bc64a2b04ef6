// Open sides on the grid's edge become portals.
ghost use Rattle.std.specs.Prelude.{◌≡◌, get_or};
ghost use Rattle.mem.specs.Slice.{view, splice};
ghost use Rattle.rules.specs.Mesh.{place_of, side_start, side_end};
ghost use Rattle.rules.specs.Portals.{portal_of, portal_at, portals_in};
ghost use Rattle.laws.specs.Lists.{All};
ghost use Rattle.laws.specs.Merge.{Below};
ghost use Rattle.records.specs.Layout.{vertices_at, Placed};
ghost use Rattle.records.specs.Values.{corners_of, On};
ghost use Rattle.links.specs.Ready.{link_records, LinksInHand, PortalReady, portals_at};

use plane::ring::next;
use records::polygon::{LINK_SIZE, NONE, Poly, corner, load_at, place_of};
use records::run::Run;
use rules::{Grid, Point};

// The vertices, and the grid that they lie on.
#[derive(Clone, Copy)]
struct Plan {
    vertices: Run,
    grid: Grid,
}

// The link of an open side from a to b: with both ends on x=0, z=h, x=w or z=0, tried so, it is 65,536 plus 0, 1, 2 or 3;
// else it stays open.
pub fn portal_of(w: u16, h: u16, a: Point, b: Point) -> u32
    ensures { result ≡ portal_of w h a b }
{
    if (a.x == 0) & (b.x == 0) {
        return 65536;
    }
    if (a.z == h) & (b.z == h) {
        return 65537;
    }
    if (a.x == w) & (b.x == w) {
        return 65538;
    }
    if (a.z == 0) & (b.z == 0) {
        return 65539;
    }
    NONE
}

// The link of side j of p if it is open.
fn side_portal(work: &[u32], g: Plan, p: Poly, j: usize) -> u32
    requires { Placed work.now g.vertices.at g.vertices.n × All (Below g.vertices.n) (corners_of p) × On p j }
    ensures { result ≡ portal_of g.grid.w g.grid.h (place_of (vertices_at work.now g.vertices.at g.vertices.n) (side_start (corners_of p) j)) (place_of (vertices_at work.now g.vertices.at g.vertices.n) (side_end (corners_of p) j)) }
{
    let a = place_of(work, g.vertices, p, j);
    let b = place_of(work, g.vertices, p, next(j, p.n));
    portal_of(g.grid.w, g.grid.h, a, b)
}

// The link of side j of p, whose links stand at `at`: a portal if it is open and on the grid's edge, else what it was.
fn portal_at(work: &[u32], g: Plan, p: Poly, at: usize, j: usize) -> u32
    requires { LinksInHand work.now g.vertices.at g.vertices.n p at × On p j }
    ensures { result ≡ portal_at (vertices_at work.now g.vertices.at g.vertices.n) g.grid.w g.grid.h (corners_of p) (view work.now at p.n) j }
{
    let link = work[at + j];
    if link == NONE {
        return side_portal(work, g, p, j);
    }
    link
}

// The same for each side of p.
fn mark_polygon(work: &mut [u32], g: Plan, p: Poly, at: usize)
    requires { LinksInHand work.old g.vertices.at g.vertices.n p at }
    ensures { work.new ≡ splice work.old at (portals_in (vertices_at work.old g.vertices.at g.vertices.n) g.grid.w g.grid.h (corners_of p) (view work.old at p.n)) }
{
    for j in 0..p.n {
        work[at + j] = portal_at(work, g, p, at, j);
    }
}

// R7 for the polygons, whose links stand at lo, if there is a border.
pub fn mark_portals(work: &mut [u32], vertices: Run, polygons: Run, lo: usize, grid: Grid)
    requires { PortalReady work.old vertices.at vertices.n polygons.at polygons.n lo }
    ensures { work.new ≡ splice work.old lo (link_records (portals_at work.old vertices.at vertices.n polygons.at polygons.n lo grid.w grid.h grid.border)) }
{
    if grid.border == 0 {
        return;
    }
    let g = Plan { vertices, grid };
    for i in 0..polygons.n {
        let p = load_at(work, polygons, i);
        mark_polygon(work, g, p, lo + i * LINK_SIZE);
    }
}
