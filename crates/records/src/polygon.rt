// A polygon of the work buffer: how many corners it has, its region, its area code, room for twelve corners, and three
// words that are kept for its area.
ghost use Rattle.std.specs.Prelude.{◌≡◌, [], ◌∷◌, ◌++◌, ◌+◌, ◌*◌, ◌≤◌, ◌<◌, length, get_or};
ghost use Rattle.mem.specs.Slice.{view, splice};
ghost use Rattle.rules.specs.Lists.{swap_remove};
ghost use Rattle.rules.specs.Plane.{InGrid};
ghost use Rattle.rules.specs.Mesh.{no_polygon, polygon_at, side_end, place_of};
ghost use Rattle.laws.specs.Lists.{All};
ghost use Rattle.laws.specs.Merge.{Below};
ghost use Rattle.records.specs.Layout.{polygon_size, most_corners, polygon_in, polygons_at, polygon_records, vertices_at, Placed};
ghost use Rattle.records.specs.Values.{corners_of, poly_words, to_poly, Loaded, On, Stands, SwapReady};

use crate::run::Run;
use crate::vertex::place_at;
use plane::ring::next;
use rules::Point;

pub const POLYGON_SIZE: usize = 18;

// The most corners a polygon can have.
pub const MOST_CORNERS: usize = 12;

// How many words a polygon's links have: one for each corner that it can have.
pub const LINK_SIZE: usize = 12;

// Where a polygon's words have its corners, and what is kept behind them.
pub const CORNERS_AT: usize = 3;

const SPARE_AT: usize = 15;

// What a place without a corner holds.
pub const NONE: u32 = 65535;

// A polygon by value: the first n of its corners count, the others are 65,535.
#[derive(Clone, Copy, Debug, PartialEq, Eq)]
pub struct Poly {
    pub corners: [u32; MOST_CORNERS],
    pub n: usize,
    pub region: u32,
    pub code: u32,
}

// The polygon whose words start at `at`.
pub fn load_poly(work: &[u32], at: usize) -> Poly
    requires { Stands work.now at }
    ensures { Loaded (polygon_in (view work.now at polygon_size)) result }
{
    let n = work[at] as usize;
    let mut corners = [NONE; MOST_CORNERS];
    corners[..n].copy_from_slice(&work[at + CORNERS_AT..at + CORNERS_AT + n]);
    Poly {
        corners,
        n,
        region: work[at + 1],
        code: work[at + 2],
    }
}

// The words from `at` on become those of the polygon.
pub fn store_poly(work: &mut [u32], at: usize, p: Poly)
    requires { (at + polygon_size ≤ length work.old) × (p.n ≤ most_corners) }
    ensures { work.new ≡ splice work.old at (poly_words p) }
{
    work[at] = p.n as u32;
    work[at + 1] = p.region;
    work[at + 2] = p.code;
    work[at + CORNERS_AT..at + SPARE_AT].copy_from_slice(&p.corners);
    work[at + SPARE_AT..at + POLYGON_SIZE].fill(0);
}

// Polygon i.
pub fn load_at(work: &[u32], polygons: Run, i: usize) -> Poly
    requires { (polygons.at + polygons.n * polygon_size ≤ length work.now) × (i < polygons.n) × (length (polygon_at (polygons_at work.now polygons.at polygons.n) i).corners ≤ most_corners) }
    ensures { Loaded (polygon_at (polygons_at work.now polygons.at polygons.n) i) result }
{
    load_poly(work, polygons.at + i * POLYGON_SIZE)
}

// Polygon i is written anew.
pub fn store_at(work: &mut [u32], polygons: Run, i: usize, p: Poly)
    requires { (polygons.at + polygons.n * polygon_size ≤ length work.old) × (i < polygons.n) × (p.n ≤ most_corners) }
    ensures { work.new ≡ splice work.old (polygons.at + i * polygon_size) (poly_words p) }
{
    store_poly(work, polygons.at + i * POLYGON_SIZE, p);
}

// Corner i: where side i starts.
pub fn corner(p: Poly, i: usize) -> u32
    requires { On p i }
    ensures { result ≡ get_or (corners_of p) i 0 }
{
    p.corners[i]
}

// Where side i ends.
pub fn side_end(p: Poly, i: usize) -> u32
    requires { On p i }
    ensures { result ≡ side_end (corners_of p) i }
{
    corner(p, next(i, p.n))
}

// Where corner i of p stands.
pub fn place_of(work: &[u32], vertices: Run, p: Poly, i: usize) -> Point
    requires { Placed work.now vertices.at vertices.n × All (Below vertices.n) (corners_of p) × On p i }
    ensures { (result ≡ place_of (vertices_at work.now vertices.at vertices.n) (get_or (corners_of p) i 0)) × InGrid result }
{
    place_at(work, vertices, corner(p, i) as usize)
}

// No polygon.
fn blank() -> Poly
    ensures { (result ≡ to_poly no_polygon) × (result.n ≤ most_corners) }
{
    Poly {
        corners: [NONE; MOST_CORNERS],
        n: 0,
        region: 0,
        code: 0,
    }
}

// Of the polygons, the last takes the place of polygon i, and a blank one that of the last.
pub fn swap_remove(work: &mut [u32], polygons: Run, i: usize)
    requires { SwapReady work.old polygons.at polygons.n i }
    ensures { work.new ≡ splice work.old polygons.at (polygon_records (swap_remove no_polygon (polygons_at work.old polygons.at polygons.n) i ++ (no_polygon ∷ []))) }
{
    let last = load_at(work, polygons, polygons.n - 1);
    store_at(work, polygons, i, last);
    store_at(work, polygons, polygons.n - 1, blank());
}
