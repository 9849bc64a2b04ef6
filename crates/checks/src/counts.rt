// The sums over the contours' lengths: all vertices, V and T; and whether the lists of a job agree in count.
ghost use Rattle.std.specs.Prelude.{◌≡◌, ℕ, ◌≤◌, length};
ghost use Rattle.rules.specs.Checks.{counts_agree};
ghost use Rattle.rules.specs.declared.Grid.{Grid};
ghost use Rattle.checks.specs.Sums.{points_of, triangles_of, sum_all, sum_v, sum_t, Total};
ghost use Rattle.checks.specs.Answers.{job_in};

use crate::contour_set::ContourSet;

// How many numbers a vertex of a job has: x, y, z and its flag.
pub const JOB_STRIDE: usize = 4;

// "over 65,535 contours": more than so many are refused.
pub const MOST_CONTOURS: usize = 65535;

// What a contour of n vertices adds to V.
fn points_in(n: u32) -> usize
    ensures { result ≡ points_of n }
{
    if 3 <= n { n as usize } else { 0 }
}

// What it adds to T.
fn triangles_in(n: u32) -> usize
    ensures { result ≡ triangles_of n }
{
    if 3 <= n { (n - 2) as usize } else { 0 }
}

// How many vertices the lengths say there are, skipped contours counted.
pub fn count_all(lengths: &[u32]) -> usize
    requires { length lengths.now ≤ 65535 }
    ensures { Total (sum_all lengths.now) result }
{
    lengths.iter().map(|n| *n as usize).sum()
}

// V: the vertices of contours of 3 or more.
pub fn count_v(lengths: &[u32]) -> usize
    requires { length lengths.now ≤ 65535 }
    ensures { result ≡ sum_v lengths.now }
{
    lengths.iter().map(|n| points_in(*n)).sum()
}

// T: the triangles of the same.
pub fn count_t(lengths: &[u32]) -> usize
    requires { length lengths.now ≤ 65535 }
    ensures { result ≡ sum_t lengths.now }
{
    lengths.iter().map(|n| triangles_in(*n)).sum()
}

// Whether there is a region and a code for each length, four numbers for each vertex, and not too many contours. These are
// counted before anything is summed, so that no sum wraps.
pub fn counts_agree(set: &ContourSet<'_>) -> bool
    ensures { (nvp : ℕ) (grid : Grid) → result ≡ counts_agree (job_in nvp grid set.now) }
{
    let n = set.lengths.len();
    if MOST_CONTOURS < n {
        return false;
    }
    let all = count_all(set.lengths) * JOB_STRIDE;
    (set.regions.len() == n) & ((set.codes.len() == n) & (set.numbers.len() == all))
}
