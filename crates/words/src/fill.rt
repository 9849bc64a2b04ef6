// One value written into a slice.
ghost use Rattle.std.specs.Prelude.{◌≡◌, ◌+◌, ◌≤◌, length, replicate};
ghost use Rattle.mem.specs.Slice.{splice};

// The n elements from `at` on become x.
pub fn fill<T: Copy>(work: &mut [T], at: usize, n: usize, x: T)
    requires { at + n ≤ length work.old }
    ensures { work.new ≡ splice work.old at (replicate n x) }
{
    for item in &mut work[at..at + n] {
        *item = x;
    }
}
