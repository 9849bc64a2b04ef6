// Words that move within a slice.
ghost use Rattle.std.specs.Prelude.{◌≡◌, ◌+◌, ◌≤◌, length};
ghost use Rattle.mem.specs.Slice.{view, splice};

// The n words from `from` on move to the beginning.
pub fn move_down(part: &mut [u32], from: usize, n: usize)
    requires { from + n ≤ length part.old }
    ensures { part.new ≡ splice part.old 0 (view part.old from n) }
{
    part.copy_within(from..from + n, 0);
}
