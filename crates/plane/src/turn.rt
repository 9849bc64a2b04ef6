// D of three points, and its sign: which side of the line from a to b the point c is on.
ghost use Rattle.std.specs.Prelude.{◌≡◌};
ghost use Rattle.rules.specs.Plane.{D, InGrid, is_left, is_left_on};
ghost use Rattle.rules.specs.Plane as Plane;

use rules::Point;

// Twice the signed area of the triangle a, b, c.
#[tactic(auto, using(crate::proofs::Sizes::gap_needs, crate::proofs::Sizes::product_needs, crate::proofs::Sizes::turn_needs))]
pub fn area2(a: Point, b: Point, c: Point) -> i32
    requires { InGrid a × InGrid b × InGrid c }
    ensures { result ≡ D a b c }
{
    let ax = i32::from(a.x);
    let az = i32::from(a.z);
    let bx = i32::from(b.x);
    let bz = i32::from(b.z);
    let cx = i32::from(c.x);
    let cz = i32::from(c.z);
    (bx - ax) * (cz - az) - (cx - ax) * (bz - az)
}

// Whether c lies to the left of the line from a to b.
pub fn is_left(a: Point, b: Point, c: Point) -> bool
    requires { InGrid a × InGrid b × InGrid c }
    ensures { result ≡ is_left a b c }
{
    area2(a, b, c) < 0
}

// Whether c lies to the left of that line, or on it.
pub fn is_left_on(a: Point, b: Point, c: Point) -> bool
    requires { InGrid a × InGrid b × InGrid c }
    ensures { result ≡ is_left_on a b c }
{
    area2(a, b, c) <= 0
}

// Whether c lies on that line.
pub fn collinear(a: Point, b: Point, c: Point) -> bool
    requires { InGrid a × InGrid b × InGrid c }
    ensures { result ≡ Plane.collinear a b c }
{
    area2(a, b, c) == 0
}
