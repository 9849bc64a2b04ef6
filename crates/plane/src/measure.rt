// Squared lengths, and the doubled area of a list of points.
ghost use Rattle.std.specs.Prelude.{◌≡◌, ◌+◌, ◌*◌, ◌<◌, ◌≤◌, length};
ghost use Rattle.rules.specs.Plane.{InGrid, squared, area};
ghost use Rattle.plane.specs.Points.{point_of, points_in, GridWords};

use crate::turn::area2;
use rules::Point;

// The squared distance of two points.
#[tactic(auto, unfolding(rules::specs::Plane::squared, rules::specs::Lists::apart))]
pub fn length_squared(a: Point, b: Point) -> u32
    requires { InGrid a × InGrid b }
    ensures { result ≡ squared a b }
{
    let x = u32::from(a.x.abs_diff(b.x));
    let z = u32::from(a.z.abs_diff(b.z));
    x * x + z * z
}

// The point at place k of a slice of words x, z, x, z, ..
#[tactic(auto, using(crate::proofs::Sizes::on_grid, crate::proofs::Sizes::word_fits), unfolding(crate::specs::Points::point_of))]
pub fn point_at(pts: &[u32], k: usize) -> Point
    requires { GridWords pts.now × (k * 2 + 1 < length pts.now) }
    ensures { (result ≡ point_of pts.now k) × InGrid result }
{
    Point {
        x: pts[k * 2] as u16,
        z: pts[k * 2 + 1] as u16,
    }
}

// The doubled area of the points.
pub fn doubled_area(pts: &[u32]) -> i64
    requires { GridWords pts.now }
    ensures { result ≡ area (points_in pts.now) }
{
    let n = pts.len() / 2;
    if n < 3 {
        return 0;
    }
    let first = point_at(pts, 0);
    let mut sum = 0i64;
    for k in 1..n - 1 {
        sum += i64::from(area2(first, point_at(pts, k), point_at(pts, k + 1)));
    }
    sum
}
