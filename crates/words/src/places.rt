// Words read as places.
ghost use Rattle.std.specs.Prelude.{◌≡◌, ◌<◌, length, get_or};

// The word at `at`, as a place.
pub fn link_at(work: &[u32], at: usize) -> usize
    requires { at < length work.now }
    ensures { result ≡ get_or work.now at 0 }
{
    work[at] as usize
}
