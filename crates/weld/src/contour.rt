// All vertices of a contour take their numbers.
ghost use Rattle.std.specs.Prelude.{◌≡◌, ◌+◌, ◌*◌, ◌≤◌, length};
ghost use Rattle.rules.specs.Job.{job_stride, vertex_at, flag_at};
ghost use Rattle.weld.specs.Tables.{WeldReady, WeldedTo};

use crate::add::{grow, weld_vertex};
use crate::find::Tables;
use rules::Vertex;

// How many numbers a vertex of a job has: x, y, z and its flag.
const JOB_STRIDE: usize = 4;

// Vertex k of a job.
#[tactic(auto, unfolding(rules::specs::Job::vertex_at))]
fn vertex_at(numbers: &[u16], k: usize) -> Vertex
    requires { k * job_stride + job_stride ≤ length numbers.now }
    ensures { result ≡ vertex_at numbers.now k }
{
    let at = k * JOB_STRIDE;
    Vertex {
        x: numbers[at],
        y: numbers[at + 1],
        z: numbers[at + 2],
    }
}

// Its flag.
#[tactic(auto, unfolding(rules::specs::Job::flag_at))]
fn flag_at(numbers: &[u16], k: usize) -> u16
    requires { k * job_stride + job_stride ≤ length numbers.now }
    ensures { result ≡ flag_at numbers.now k }
{
    numbers[k * JOB_STRIDE + 3]
}

// R3 for the contour of the n vertices of a job from `first` on: their numbers are stored from `ko` on. The result says how
// many vertices there are.
pub fn weld_contour(
    work: &mut [u32],
    t: Tables,
    nv: usize,
    ko: usize,
    numbers: &[u16],
    first: usize,
    n: usize,
    height: u16,
) -> usize
    requires { WeldReady work.old numbers.now t nv ko first n }
    ensures { WeldedTo height work.old work.new numbers.now t nv ko first n result }
{
    let mut m = nv;
    for i in 0..n {
        let v = vertex_at(numbers, first + i);
        let flag = flag_at(numbers, first + i);
        let k = weld_vertex(work, t, m, v, flag, height);
        work[ko + i] = k as u32;
        m = grow(m, k);
    }
    m
}
