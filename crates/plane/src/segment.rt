// Two segments, a b and c d: whether they cross, and whether they touch.
ghost use Rattle.std.specs.Prelude.{◌≡◌};
ghost use Rattle.rules.specs.Plane.{InGrid, intersect_prop, within};
ghost use Rattle.rules.specs.Plane as Plane;

use crate::turn::{collinear, is_left};
use rules::Point;

// Whether c lies between a and b, the ends included.
#[tactic(auto, unfolding(rules::specs::Plane::within))]
fn lies_within(a: u16, b: u16, c: u16) -> bool
    ensures { result ≡ within a b c }
{
    a <= c && c <= b || c <= a && b <= c
}

// Whether c touches the segment from a to b.
#[tactic(auto, unfolding(rules::specs::Plane::between))]
pub fn between(a: Point, b: Point, c: Point) -> bool
    requires { InGrid a × InGrid b × InGrid c }
    ensures { result ≡ Plane.between a b c }
{
    collinear(a, b, c)
        && if a.x == b.x {
            lies_within(a.z, b.z, c.z)
        } else {
            lies_within(a.x, b.x, c.x)
        }
}

// Whether the segments cross: no end of one is on the line of the other, and the ends of each are on unlike sides.
#[tactic(auto, unfolding(rules::specs::Plane::intersect_prop))]
pub fn intersect_prop(a: Point, b: Point, c: Point, d: Point) -> bool
    requires { InGrid a × InGrid b × InGrid c × InGrid d }
    ensures { result ≡ intersect_prop a b c d }
{
    if collinear(a, b, c) || collinear(a, b, d) || collinear(c, d, a) || collinear(c, d, b) {
        return false;
    }
    is_left(a, b, c) != is_left(a, b, d) && is_left(c, d, a) != is_left(c, d, b)
}

// Whether the segments cross or touch.
#[tactic(auto, unfolding(rules::specs::Plane::intersect))]
pub fn intersect(a: Point, b: Point, c: Point, d: Point) -> bool
    requires { InGrid a × InGrid b × InGrid c × InGrid d }
    ensures { result ≡ Plane.intersect a b c d }
{
    intersect_prop(a, b, c, d)
        || between(a, b, c)
        || between(a, b, d)
        || between(c, d, a)
        || between(c, d, b)
}
