// The places of a contour's vertices are laid out, and cut.
ghost use Rattle.std.specs.Prelude.{◌≡◌, ◌+◌, ◌*◌, ◌≤◌, length};
ghost use Rattle.mem.specs.Slice.{splice};
ghost use Rattle.mem.specs.Packed.{packed};
ghost use Rattle.rules.specs.Plane.{on_plane};
ghost use Rattle.rules.specs.Job.{job_stride, vertex_at};
ghost use Rattle.rules.specs.Ears as Rules;
ghost use Rattle.ears.specs.Part.{answer_of};
ghost use Rattle.holes.specs.Fill.{place_words, cut_words};
ghost use Rattle.contours.specs.Cutting.{places_in, LayReady, CutReady};

use checks::counts::JOB_STRIDE;
use ears::cut::{NoEar, triangulate};
use rules::Point;

// Where vertex k of a job stands.
fn place_in(numbers: &[u16], k: usize) -> Point
    requires { k * job_stride + job_stride ≤ length numbers.now }
    ensures { result ≡ on_plane (vertex_at numbers.now k) }
{
    let at = k * JOB_STRIDE;
    Point {
        x: numbers[at],
        z: numbers[at + 2],
    }
}

// The places of the n vertices of a job from `first` on go to po, two words each.
pub fn lay_contour(work: &mut [u32], numbers: &[u16], first: usize, n: usize, po: usize)
    requires { LayReady work.old numbers.now first n po }
    ensures { work.new ≡ splice work.old po (packed place_words (places_in numbers.now first n)) }
{
    for k in 0..n {
        let p = place_in(numbers, first + k);
        work[po + k * 2] = p.x as u32;
        work[po + k * 2 + 1] = p.z as u32;
    }
}

// The contour of these vertices is laid out at po and cut.
pub fn cut_contour(
    work: &mut [u32],
    numbers: &[u16],
    first: usize,
    n: usize,
    po: usize,
) -> Result<usize, NoEar>
    requires { CutReady work.old numbers.now first n po }
    ensures answer { result ≡ answer_of (Rules.triangulate (places_in numbers.now first n)) }
    ensures words { work.new ≡ splice work.old po (cut_words n (places_in numbers.now first n) (Rules.triangulate (places_in numbers.now first n))) }
{
    lay_contour(work, numbers, first, n, po);
    let e = po + (n * 6 - 6);
    triangulate(&mut work[po..e], n)
}
