// The vertices of a job, in their order: the first that is off the grid, and the first whose flag is neither 0 nor 1.
ghost use Rattle.std.specs.Prelude.{◌≡◌, ◌+◌, ◌*◌, ◌≤◌, ltb, length};
ghost use Rattle.rules.specs.Job.{job_stride, vertex_at, flag_at};
ghost use Rattle.rules.specs.Checks.{is_high};
ghost use Rattle.checks.specs.Answers.{first_high_in, first_bad_flag_in};

use crate::counts::JOB_STRIDE;

// Whether x or z of vertex k is above 32,767.
fn is_high(numbers: &[u16], k: usize) -> bool
    requires { k * job_stride + job_stride ≤ length numbers.now }
    ensures { result ≡ is_high (vertex_at numbers.now k) }
{
    let at = k * JOB_STRIDE;
    (32767 < numbers[at]) | (32767 < numbers[at + 2])
}

// Whether the flag of vertex k is above 1.
fn is_bad_flag(numbers: &[u16], k: usize) -> bool
    requires { k * job_stride + job_stride ≤ length numbers.now }
    ensures { result ≡ ltb 1 (flag_at numbers.now k) }
{
    1 < numbers[k * JOB_STRIDE + 3]
}

// The first of the n vertices with x or z above 32,767.
pub fn first_high(numbers: &[u16], n: usize) -> Option<usize>
    requires { n * job_stride ≤ length numbers.now }
    ensures { result ≡ first_high_in numbers.now n }
{
    (0..n).find(|k| is_high(numbers, *k))
}

// The first of the n vertices whose flag is neither 0 nor 1.
pub fn first_bad_flag(numbers: &[u16], n: usize) -> Option<usize>
    requires { n * job_stride ≤ length numbers.now }
    ensures { result ≡ first_bad_flag_in numbers.now n }
{
    (0..n).find(|k| is_bad_flag(numbers, *k))
}
