// A walk under way, in a part of the work buffer: the sides not yet used stand at its beginning, and the chain further
// behind, so that a point can be added at both of its ends.
ghost use Rattle.std.specs.Prelude.{◌*◌, ◌≤◌, ◌<◌, length};
ghost use Rattle.rules.specs.Removal.{front, back, walk_by, walk_one};
ghost use Rattle.records.specs.Layout.{side_size};
ghost use Rattle.trails.specs.Trails.{walk_in, Trying, Came, Used};

use records::point::{POINT_SIZE, load_point, store_point};
use records::side::{SIDE_SIZE, load_side, store_side};
use rules::{ChainPoint, Side};

// Side `at` is tried next, of the `left` sides not yet used; the chain has `points` points, from the word `first` on.
#[derive(Clone, Copy, Debug, PartialEq, Eq)]
pub struct Trail {
    pub at: usize,
    pub left: usize,
    pub first: usize,
    pub points: usize,
}

// Of n sides, side i is used: the last takes its place.
fn use_side(part: &mut [u32], n: usize, i: usize)
    requires { (n * side_size ≤ length part.old) × (i < n) }
    ensures { Used part.old part.new n i }
{
    let last = n - 1;
    let s = load_side(part, 0, n, last);
    store_side(part, i * SIDE_SIZE, s);
}

// Side `at`, which is s, is used in front of the chain.
fn link_front(part: &mut [u32], t: Trail, s: Side) -> Trail
    requires { Trying part.old t }
    ensures { Came (walk_by front s (walk_in part.old t)) part.new result }
{
    let first = t.first - POINT_SIZE;
    let c = ChainPoint {
        vertex: s.start,
        region: s.region,
        code: s.code,
    };
    use_side(part, t.left, t.at);
    store_point(part, first, c);
    Trail {
        left: t.left - 1,
        first,
        points: t.points + 1,
        ..t
    }
}

// Side `at`, which is s, is used behind the chain.
fn link_back(part: &mut [u32], t: Trail, s: Side) -> Trail
    requires { Trying part.old t }
    ensures { Came (walk_by back s (walk_in part.old t)) part.new result }
{
    let behind = t.first + t.points * POINT_SIZE;
    let c = ChainPoint {
        vertex: s.end,
        region: s.region,
        code: s.code,
    };
    use_side(part, t.left, t.at);
    store_point(part, behind, c);
    Trail {
        left: t.left - 1,
        points: t.points + 1,
        ..t
    }
}

// Side `at` is tried, in front before behind.
pub fn try_side(part: &mut [u32], t: Trail) -> Trail
    requires { Trying part.old t }
    ensures { Came (walk_one (walk_in part.old t)) part.new result }
{
    let s = load_side(part, 0, t.left, t.at);
    let first = load_point(part, t.first, t.points, 0);
    let last = load_point(part, t.first, t.points, t.points - 1);
    let behind = s.start == last.vertex;
    let in_front = s.end == first.vertex;
    if in_front {
        link_front(part, t, s)
    } else if behind {
        link_back(part, t, s)
    } else {
        Trail { at: t.at + 1, ..t }
    }
}
