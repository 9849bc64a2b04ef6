// Numbers as four bytes, the lowest first; and zeros.
ghost use Rattle.std.specs.Prelude.{◌≡◌, ◌+◌, ◌*◌, ◌≤◌, length, replicate};
ghost use Rattle.mem.specs.Slice.{view, splice};
ghost use Rattle.rules.specs.Stl.{little, from_little};

// The four bytes of n, from `at` on.
pub fn put_u32(out: &mut [u8], at: usize, n: u32)
    requires { at + 4 ≤ length out.old }
    ensures { out.new ≡ splice out.old at (little n) }
{
    out[at..at + 4].copy_from_slice(&n.to_le_bytes());
}

// The number in the four bytes from `at` on.
pub fn get_u32(bytes: &[u8], at: usize) -> u32
    requires { at + 4 ≤ length bytes.now }
    ensures { result ≡ from_little (view bytes.now at 4) }
{
    u32::from_le_bytes([bytes[at], bytes[at + 1], bytes[at + 2], bytes[at + 3]])
}

// n zeros, from `at` on.
pub fn put_zeros(out: &mut [u8], at: usize, n: usize)
    requires { at + n ≤ length out.old }
    ensures { out.new ≡ splice out.old at (replicate n 0) }
{
    out[at..at + n].fill(0);
}
