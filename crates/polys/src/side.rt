// The side that two polygons share. Their words start at `at` and at `bt`.
ghost use Rattle.std.specs.Prelude.{◌≡◌, ◌&&◌, ◌||◌, eqb};
ghost use Rattle.rules.specs.Merge.{shared_by, shared_side};
ghost use Rattle.records.specs.Values.{corners_from, Stands, CornerOf};

use records::corner::{corner_from, count_from, end_from};

// Whether the sides from a to b and from c to d run the same way.
fn is_along(a: u32, b: u32, c: u32, d: u32) -> bool
    ensures { result ≡ (eqb a c && eqb b d) }
{
    (a == c) & (b == d)
}

// Whether they run in opposite directions.
pub fn is_opposite(a: u32, b: u32, c: u32, d: u32) -> bool
    ensures { result ≡ (eqb a d && eqb b c) }
{
    (a == d) & (b == c)
}

// Whether they are equal: the same two vertices, either way round.
fn is_equal(a: u32, b: u32, c: u32, d: u32) -> bool
    ensures { result ≡ ((eqb a c && eqb b d) || (eqb a d && eqb b c)) }
{
    is_along(a, b, c, d) | is_opposite(a, b, c, d)
}

// Side i of the first, and the first side of the second that is equal to it.
fn shared_by(work: &[u32], at: usize, bt: usize, i: usize) -> Option<(usize, usize)>
    requires { CornerOf work.now at i × Stands work.now bt }
    ensures { result ≡ shared_by (corners_from work.now at) (corners_from work.now bt) i }
{
    let a = corner_from(work, at, i);
    let b = end_from(work, at, i);
    let n = count_from(work, bt);
    if n == 0 {
        return None;
    }
    let mut c = corner_from(work, bt, 0);
    for j in 0..n {
        let d = end_from(work, bt, j);
        if is_equal(a, b, c, d) {
            return Some((i, j));
        }
        c = d;
    }
    None
}

// The last side of the first with an equal one in the second, and the first such in that.
pub fn shared_side(work: &[u32], at: usize, bt: usize) -> Option<(usize, usize)>
    requires { Stands work.now at × Stands work.now bt }
    ensures { result ≡ shared_side (corners_from work.now at) (corners_from work.now bt) }
{
    for i in (0..count_from(work, at)).rev() {
        if let Some(sides) = shared_by(work, at, bt, i) {
            return Some(sides);
        }
    }
    None
}
