// The box of a segment, and the segments that are apart from it.
ghost use Rattle.std.specs.Prelude.{◌≡◌, ◌&&◌, nat_lt};
ghost use Rattle.plane.specs.Boxes.{bounds_of, is_beside, is_apart};

use rules::Point;

// The least and the greatest x, and the least and the greatest z.
#[derive(Clone, Copy, Debug, PartialEq, Eq)]
pub struct Bounds {
    pub x0: u16,
    pub x1: u16,
    pub z0: u16,
    pub z1: u16,
}

// The box of the segment from a to b. Where that has no length it is the whole plane, so that nothing lies beside it.
#[tactic(auto, unfolding(crate::specs::Boxes::bounds_of, crate::specs::Boxes::least, crate::specs::Boxes::most, rules::specs::Plane::vequal))]
pub fn bounds_of(a: Point, b: Point) -> Bounds
    ensures { result ≡ bounds_of a b }
{
    if a == b {
        return Bounds {
            x0: 0,
            x1: 65535,
            z0: 0,
            z1: 65535,
        };
    }
    Bounds {
        x0: a.x.min(b.x),
        x1: a.x.max(b.x),
        z0: a.z.min(b.z),
        z1: a.z.max(b.z),
    }
}

// Whether c and d are both below m.
fn are_below(c: u16, d: u16, m: u16) -> bool
    ensures { result ≡ (nat_lt c m && nat_lt d m) }
{
    c < m && d < m
}

// Whether c and d are both above m.
fn are_above(c: u16, d: u16, m: u16) -> bool
    ensures { result ≡ (nat_lt m c && nat_lt m d) }
{
    m < c && m < d
}

// Whether the segment from c to d lies beyond one side of the box. The first tests mostly tell.
#[tactic(auto, unfolding(crate::specs::Boxes::is_beside))]
fn is_beside(t: Bounds, c: Point, d: Point) -> bool
    ensures { result ≡ is_beside t c d }
{
    are_above(c.x, d.x, t.x1)
        || are_below(c.x, d.x, t.x0)
        || are_above(c.z, d.z, t.z1)
        || are_below(c.z, d.z, t.z0)
}

// Whether that segment has a length too: then it neither crosses nor touches the one whose box this is.
#[tactic(auto, unfolding(crate::specs::Boxes::is_apart, rules::specs::Plane::vequal))]
pub fn are_apart(t: Bounds, c: Point, d: Point) -> bool
    ensures { result ≡ is_apart t c d }
{
    is_beside(t, c, d) && c != d
}
