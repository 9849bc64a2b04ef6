// The untouched sides of the polygons that hold a vertex, in the numbers that hold once the vertex has gone.
ghost use Rattle.std.specs.Prelude.{◌≡◌, ◌+◌, ◌*◌, ◌≤◌, ◌<◌, ltb, length};
ghost use Rattle.rules.specs.Removal.{holds, side_into, untouched};
ghost use Rattle.rules.specs.Removal as Rules;
ghost use Rattle.rules.specs.Mesh.{polygon_at};
ghost use Rattle.records.specs.Layout.{most_corners, polygon_size, polygons_at, Small, side_size};
ghost use Rattle.records.specs.Values.{polygon_of, On};
ghost use Rattle.trails.specs.Sides.{Laid, CollectReady, Collected};

use plane::ring::prev;
use records::corner::corners_from;
use records::polygon::{POLYGON_SIZE, Poly, corner, load_at};
use records::run::Run;
use records::side::{SIDE_SIZE, store_side};
use rules::Side;

// Whether polygon i holds the vertex.
pub fn is_held(work: &[u32], polygons: Run, i: usize, rem: u32) -> bool
    requires { (polygons.at + polygons.n * polygon_size ≤ length work.now) × (i < polygons.n) × Small (polygon_at (polygons_at work.now polygons.at polygons.n) i) }
    ensures { result ≡ ltb 0 (holds rem (polygon_at (polygons_at work.now polygons.at polygons.n) i)) }
{
    corners_from(work, polygons.at + i * POLYGON_SIZE)
        .iter()
        .any(|c| *c == rem)
}

// A vertex's number once the vertex `rem` has gone.
pub fn dropped(v: u32, rem: u32) -> u32
    ensures { result ≡ Rules.dropped rem v }
{
    if rem < v { v - 1 } else { v }
}

// The side that ends at corner j goes to `at`, where it doesn't touch the vertex. The result says how many sides went there.
fn push_side(work: &mut [u32], at: usize, p: Poly, j: usize, rem: u32) -> usize
    requires { On p j × (at + length (side_into rem (polygon_of p) j) * side_size ≤ length work.old) }
    ensures { Laid rem (side_into rem (polygon_of p) j) work.old work.new at result }
{
    let a = corner(p, prev(j, p.n));
    let b = corner(p, j);
    if a == rem || b == rem {
        return 0;
    }
    let s = Side {
        start: dropped(a, rem),
        end: dropped(b, rem),
        region: p.region,
        code: p.code,
    };
    store_side(work, at, s);
    1
}

// The untouched sides of a polygon go to `at`, first the one from its last corner to its first.
fn push_sides(work: &mut [u32], at: usize, p: Poly, rem: u32) -> usize
    requires { (p.n ≤ most_corners) × (at + length (untouched rem (polygon_of p)) * side_size ≤ length work.old) }
    ensures { Laid rem (untouched rem (polygon_of p)) work.old work.new at result }
{
    let mut k = 0;
    for j in 0..p.n {
        k += push_side(work, at + k * SIDE_SIZE, p, j, rem);
    }
    k
}

// The untouched sides of the polygons that hold the vertex go to q, in the order in which those polygons
// go: m polygons are left, and polygon k stands at place i of them. No polygon is moved. The result says how many sides
// there are.
pub fn collect_sides(work: &mut [u32], polygons: Run, q: usize, rem: u32) -> usize
    requires { CollectReady work.old polygons.at polygons.n q rem }
    ensures { Collected work.old work.new polygons.at polygons.n q rem result }
{
    let mut n = 0;
    let mut m = polygons.n;
    let mut i = 0;
    let mut k = 0;
    while i < m {
        if is_held(work, polygons, k, rem) {
            let p = load_at(work, polygons, k);
            n += push_sides(work, q + n * SIDE_SIZE, p, rem);
            m -= 1;
            k = m;
            continue;
        }
        i += 1;
        k = i;
    }
    n
}
