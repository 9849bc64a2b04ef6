// The walk along the sides around a vertex.
ghost use Rattle.std.specs.Prelude.{◌≤◌, ◌<◌, length};
ghost use Rattle.rules.specs.Removal.{walk_once, walk_start, walk};
ghost use Rattle.records.specs.Layout.{sides_at};
ghost use Rattle.trails.specs.Trails.{walk_in, Room, Came, walk_size, WalkReady, Over, WalkedTo};

use crate::trail::{Trail, try_side};
use records::point::{POINT_SIZE, store_point};
use records::side::{SIDE_SIZE, load_side};
use rules::ChainPoint;
use words::fill::fill;
use words::moves::move_down;

// How many sides a walk left, and how many points its chain has.
#[derive(Clone, Copy, Debug, PartialEq, Eq)]
pub struct Walked {
    pub left: usize,
    pub points: usize,
}

// The walk starts with the first side's first point, in the middle of what lies behind the n sides.
fn start_walk(part: &mut [u32], n: usize) -> Trail
    requires { (0 < n) × (walk_size n ≤ length part.old) }
    ensures { Came (walk_start (sides_at part.old 0 n)) part.new result }
{
    let first = n * SIDE_SIZE + n * POINT_SIZE;
    let s = load_side(part, 0, n, 0);
    let c = ChainPoint {
        vertex: s.start,
        region: s.region,
        code: s.code,
    };
    store_point(part, first, c);
    Trail {
        at: 0,
        left: n,
        first,
        points: 1,
    }
}

// Once over the sides.
fn walk_once(part: &mut [u32], t: Trail) -> Trail
    requires { Room part.old t }
    ensures { Came (walk_once (walk_in part.old t)) part.new result }
{
    let mut u = Trail { at: 0, ..t };
    while u.at < u.left {
        u = try_side(&mut *part, u);
    }
    u
}

// Again and again over the n sides, until none is used.
fn walk_all(part: &mut [u32], n: usize) -> Trail
    requires { (0 < n) × (walk_size n ≤ length part.old) }
    ensures { Came (walk (sides_at part.old 0 n)) part.new result }
{
    let mut u = start_walk(&mut *part, n);
    loop {
        let left = u.left;
        u = walk_once(&mut *part, u);
        if u.left == left {
            return u;
        }
    }
}

// The walk along the n sides at the part's beginning. Its chain takes their place, and zeros take the place of all else.
fn walk_in(part: &mut [u32], n: usize) -> Walked
    requires { (0 < n) × (walk_size n ≤ length part.old) }
    ensures { Over (walk (sides_at part.old 0 n)) part.new (length part.old) result }
{
    let t = walk_all(&mut *part, n);
    let k = t.points * POINT_SIZE;
    move_down(&mut *part, t.first, k);
    let e = part.len();
    fill(part, k, e - k, 0);
    Walked {
        left: t.left,
        points: t.points,
    }
}

// The walk along the n sides at q. Its chain takes their place, and zeros take the place of all else up to e.
pub fn walk_sides(work: &mut [u32], q: usize, e: usize, n: usize) -> Walked
    requires { WalkReady work.old q e n }
    ensures { WalkedTo work.old work.new q e n result }
{
    walk_in(&mut work[q..e], n)
}
