// Replies 1 to 6, in the document's order: the first that applies.
ghost use Rattle.std.specs.Prelude.{◌≡◌, ℕ, ◌*◌, ◌≤◌, ltb, length};
ghost use Rattle.rules.specs.Job.{Job, job_stride};
ghost use Rattle.rules.specs.Checks.{refuse_if, refuse_at, check_nvp, check_counts, first_short, check};
ghost use Rattle.rules.specs.declared.Grid.{Grid};
ghost use Rattle.rules.specs.declared.Refusal.TheVariants.{HighCoordinate, BadFlag, TooManyVertices, ShortBuffer};
ghost use Rattle.checks.specs.Answers.{job_in, verdict_of, first_high_in, first_bad_flag_in, Sized, least_of};

use crate::contour_set::ContourSet;
use crate::counts::{count_all, count_t, count_v, counts_agree};
use crate::room::{BUFFERS, first_short, least_lengths};
use crate::vertices::{first_bad_flag, first_high};
use rules::Refusal;

// 1: nvp below 3 or above 12.
fn check_nvp(nvp: u32) -> Result<(), Refusal>
    ensures { (j : Job) → j.nvp ≡ nvp → result ≡ verdict_of (check_nvp j) }
{
    if (nvp < 3) | (12 < nvp) {
        return Err(Refusal::BadCornerLimit(u64::from(nvp)));
    }
    Ok(())
}

// 2: the lists don't agree in count, or there are over 65,535 contours.
fn check_counts(set: &ContourSet<'_>) -> Result<(), Refusal>
    ensures { (nvp : ℕ) (grid : Grid) → result ≡ verdict_of (check_counts (job_in nvp grid set.now)) }
{
    if counts_agree(set) {
        return Ok(());
    }
    Err(Refusal::CountsDisagree)
}

// 3: x or z of a vertex is above 32,767.
fn check_high(numbers: &[u16], n: usize) -> Result<(), Refusal>
    requires { n * job_stride ≤ length numbers.now }
    ensures { result ≡ verdict_of (refuse_at HighCoordinate (first_high_in numbers.now n)) }
{
    if let Some(k) = first_high(numbers, n) {
        return Err(Refusal::HighCoordinate(k as u64));
    }
    Ok(())
}

// 4: the flag of a vertex is neither 0 nor 1.
fn check_flags(numbers: &[u16], n: usize) -> Result<(), Refusal>
    requires { n * job_stride ≤ length numbers.now }
    ensures { result ≡ verdict_of (refuse_at BadFlag (first_bad_flag_in numbers.now n)) }
{
    if let Some(k) = first_bad_flag(numbers, n) {
        return Err(Refusal::BadFlag(k as u64));
    }
    Ok(())
}

// 5: V is above 65,535.
fn check_v(v: usize) -> Result<(), Refusal>
    ensures { result ≡ verdict_of (refuse_if (ltb 65535 v) (TooManyVertices v)) }
{
    if 65535 < v {
        return Err(Refusal::TooManyVertices(v as u64));
    }
    Ok(())
}

// 6: a lent buffer is too short.
fn check_room(nvp: u32, v: usize, t: usize, have: [usize; BUFFERS]) -> Result<(), Refusal>
    requires { Sized nvp v t }
    ensures { result ≡ verdict_of (refuse_at ShortBuffer (first_short have (least_of nvp v t))) }
{
    if let Some(k) = first_short(have, least_lengths(nvp, v, t)) {
        return Err(Refusal::ShortBuffer(k as u64));
    }
    Ok(())
}

// Replies 1 to 6 for a job of these contours, whatever its grid and its border are; `have` are the lengths of the lent
// buffers, in their order.
pub fn check(nvp: u32, set: &ContourSet<'_>, have: [usize; BUFFERS]) -> Result<(), Refusal>
    ensures { (grid : Grid) → result ≡ verdict_of (check (job_in nvp grid set.now) have) }
{
    check_nvp(nvp)?;
    check_counts(set)?;
    let n = count_all(set.lengths);
    check_high(set.numbers, n)?;
    check_flags(set.numbers, n)?;
    let v = count_v(set.lengths);
    check_v(v)?;
    check_room(nvp, v, count_t(set.lengths), have)
}
