// The squared distance from a point to a segment, in f32, one rounding for each operation, in the order of math.rs.
ghost use Rattle.std.specs.Prelude.{◌≡◌};
ghost use Rattle.rules.specs.Distance.{distance_squared, scaled_down};

use rules::Point;

// t divided by d, if d is above 0.
#[tactic(auto, unfolding(rules::specs::Distance::scaled_down))]
fn scaled_down(t: f32, d: f32) -> f32
    ensures { result ≡ scaled_down t d }
{
    if d > 0.0 { t / d } else { t }
}

// From pt to the segment from p to q.
#[tactic(auto, unfolding(rules::specs::Distance::distance_squared, rules::specs::Distance::to_segment, rules::specs::Distance::clamped))]
pub fn distance_squared(pt: Point, p: Point, q: Point) -> f32
    ensures { result ≡ distance_squared pt p q }
{
    let ptx = f32::from(pt.x);
    let ptz = f32::from(pt.z);
    let px = f32::from(p.x);
    let pz = f32::from(p.z);
    let pqx = f32::from(q.x) - px;
    let pqz = f32::from(q.z) - pz;
    let dtx = ptx - px;
    let dtz = ptz - pz;
    let d = pqx * pqx + pqz * pqz;
    let t = scaled_down(pqx * dtx + pqz * dtz, d).clamp(0.0, 1.0);
    let ex = px + t * pqx - ptx;
    let ez = pz + t * pqz - ptz;
    ex * ex + ez * ez
}
