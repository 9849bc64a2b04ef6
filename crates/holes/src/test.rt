// R5: whether a vertex can go.
ghost use Rattle.std.specs.Prelude.{◌≡◌, ◌+◌, ◌≤◌, length};
ghost use Rattle.rules.specs.Lists.{count};
ghost use Rattle.rules.specs.Removal.{holds, other_end, neighbours_in, met_once, can_remove};
ghost use Rattle.records.specs.Layout.{most_corners, polygons_at};
ghost use Rattle.records.specs.Values.{corners_of, polygon_of};
ghost use Rattle.holes.specs.Verdict.{Wrote, PushReady, Pushed, few_open, SidesReady, sides_used, TestReady, Tested};

use records::point::POINT_SIZE;
use records::polygon::{Poly, corner, load_at, side_end};
use records::run::Run;
use records::side::SIDE_SIZE;
use trails::sides::{collect_sides, is_held};
use trails::walk::walk_sides;
use words::fill::fill;

// How often v stands in s.
fn count_in(s: &[u32], v: u32) -> usize
    ensures { result ≡ count v s.now }
{
    s.iter().map(|x| usize::from(*x == v)).sum()
}

// How often a polygon holds the vertex.
fn holds_in(p: Poly, rem: u32) -> usize
    requires { p.n ≤ most_corners }
    ensures { result ≡ holds rem (polygon_of p) }
{
    let corners = p.corners;
    count_in(&corners[..p.n], rem)
}

// The other end of the side from a to b is written at `at`, if the side touches the vertex. The result says how many
// words that is.
fn push_end(work: &mut [u32], at: usize, a: u32, b: u32, rem: u32) -> usize
    requires { at + length (other_end rem a b) ≤ length work.old }
    ensures { Wrote work.old at (other_end rem a b) result work.new }
{
    if a == rem {
        work[at] = b;
        return 1;
    }
    if b == rem {
        work[at] = a;
        return 1;
    }
    0
}

// The neighbours of the vertex in one polygon are written at `at`.
fn push_neighbours(work: &mut [u32], at: usize, p: Poly, rem: u32) -> usize
    requires { (p.n ≤ most_corners) × (at + length (neighbours_in rem (corners_of p)) ≤ length work.old) }
    ensures { Wrote work.old at (neighbours_in rem (corners_of p)) result work.new }
{
    let mut k: usize = 0;
    for j in 0..p.n {
        k += push_end(work, at + k, corner(p, j), side_end(p, j), rem);
    }
    k
}

// What was met in the polygons: whether each of them holds the vertex at most once, and how many words were written.
#[derive(Clone, Copy)]
struct Met {
    once: bool,
    n: usize,
}

// The neighbours of the vertex in the polygons are written at q. A polygon that holds the vertex twice ends it.
fn push_all(work: &mut [u32], polygons: Run, q: usize, rem: u32) -> Met
    requires { PushReady work.old polygons.at polygons.n q }
    ensures { Pushed work.old polygons.at polygons.n q rem result work.new }
{
    let mut k: usize = 0;
    for i in 0..polygons.n {
        if is_held(work, polygons, i, rem) {
            let p = load_at(work, polygons, i);
            if 1 < holds_in(p, rem) {
                return Met { once: false, n: k };
            }
            k += push_neighbours(work, q + k, p, rem);
        }
    }
    Met { once: true, n: k }
}

// How many of the words stand there once.
fn met_once(s: &[u32]) -> usize
    ensures { result ≡ met_once s.now }
{
    s.iter().filter(|x| count_in(s, **x) == 1).count()
}

// Whether each polygon holds the vertex at most once, and at most 2 neighbours of it are met once. The zeros at q are
// used, and are zeros again.
fn few_open(work: &mut [u32], polygons: Run, q: usize, rem: u32) -> bool
    requires { PushReady work.old polygons.at polygons.n q }
    ensures { Tested (few_open rem (polygons_at work.old polygons.at polygons.n)) work.old result work.new }
{
    let met = push_all(work, polygons, q, rem);
    let e = q + met.n;
    let few = met_once(&work[q..e]) <= 2;
    fill(work, q, met.n, 0);
    met.once & few
}

// Whether more than 2 sides stay that don't touch the vertex, and the walk uses them all. The zeros at q are used, and
// are zeros again.
fn sides_used(work: &mut [u32], polygons: Run, q: usize, rem: u32) -> bool
    requires { SidesReady work.old polygons.at polygons.n q rem }
    ensures { Tested (sides_used rem (polygons_at work.old polygons.at polygons.n)) work.old result work.new }
{
    let n = collect_sides(work, polygons, q, rem);
    if n <= 2 {
        fill(work, q, n * SIDE_SIZE, 0);
        return false;
    }
    let e = q + n * SIDE_SIZE + (n + n + 1) * POINT_SIZE;
    let walked = walk_sides(work, q, e, n);
    fill(work, q, walked.points * POINT_SIZE, 0);
    walked.left == 0
}

// Whether the vertex can go, by the polygons. The zeros from q on are used, and are zeros again.
pub fn can_remove_vertex(work: &mut [u32], polygons: Run, q: usize, rem: u32) -> bool
    requires { TestReady work.old polygons.at polygons.n q }
    ensures { Tested (can_remove rem (polygons_at work.old polygons.at polygons.n)) work.old result work.new }
{
    if few_open(work, polygons, q, rem) {
        return sides_used(work, polygons, q, rem);
    }
    false
}
