// Where everything stands in the work buffer of a build with v vertices and t triangles: the weld's tables, the polygons, and
// behind them what each step needs, one step after the other in the same place.
ghost use Rattle.std.specs.Prelude.{◌≡◌, ◌≤◌};
ghost use Rattle.polymesh.specs.Layout.{Sized, used_of, polygons_of, scratch_of, ground_of, site_of, edge_tables_of, link_place_of};
ghost use Rattle.polymesh.specs.Linking.{places_of};

use contours::ground::Ground;
use links::edges::EdgeTables;
use outputs::store::Places;
use records::counts::Counts;
use records::run::Run;
use removals::site::Site;

// Where the vertices begin, behind the buckets.
const VERTICES: usize = 4096;

// Where the polygons begin.
fn polygons_at(v: usize) -> usize
    requires { v ≤ 65535 }
    ensures { result ≡ polygons_of v }
{
    VERTICES + 6 * v
}

// Where the scratch of each step begins.
fn scratch_at(v: usize, t: usize) -> usize
    requires { Sized v t }
    ensures { result ≡ scratch_of v t }
{
    polygons_at(v) + 18 * t
}

// How many words a build uses: behind the polygons, scratch for a contour, for a removal or for the links.
pub fn used_words(v: usize, t: usize) -> usize
    requires { Sized v t }
    ensures { result ≡ used_of v t }
{
    VERTICES + 13 * v + 51 * t
}

// For the contours.
pub fn ground(v: usize, t: usize) -> Ground
    requires { Sized v t }
    ensures { result ≡ ground_of v t }
{
    Ground {
        buckets: 0,
        vertices: VERTICES,
        nexts: VERTICES + 5 * v,
        v,
        polygons: polygons_at(v),
        t,
        scratch: scratch_at(v, t),
    }
}

// For the removals.
pub fn site(v: usize, t: usize) -> Site
    requires { Sized v t }
    ensures { result ≡ site_of v t }
{
    Site {
        vertices: VERTICES,
        v,
        polygons: polygons_at(v),
        t,
        scratch: scratch_at(v, t),
    }
}

// For the sides' records: three for each triangle, since polygons have at most so many corners.
pub fn edge_tables(v: usize, t: usize) -> EdgeTables
    requires { Sized v t }
    ensures { result ≡ edge_tables_of v t }
{
    let firsts = scratch_at(v, t);
    let edges = firsts + v;
    EdgeTables {
        firsts,
        edges,
        nexts: edges + 18 * t,
    }
}

// For the links.
pub fn links_at(v: usize, t: usize) -> usize
    requires { Sized v t }
    ensures { result ≡ link_place_of v t }
{
    scratch_at(v, t) + v + 21 * t
}

// For the copy: where the mesh stands, and its links.
pub fn places(v: usize, t: usize, n: Counts) -> Places
    requires { Sized v t }
    ensures { result ≡ places_of v t n }
{
    Places {
        vertices: Run {
            at: VERTICES,
            n: n.vertices,
        },
        polygons: Run {
            at: polygons_at(v),
            n: n.polygons,
        },
        links: links_at(v, t),
    }
}
