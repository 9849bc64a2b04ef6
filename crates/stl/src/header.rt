// The 84 bytes in front of the facets.
ghost use Rattle.std.specs.Prelude.{◌≡◌, ◌++◌, ◌≤◌, length, replicate};
ghost use Rattle.mem.specs.Slice.{splice};
ghost use Rattle.rules.specs.Stl.{little};

use crate::bytes::{put_u32, put_zeros};

// How many bytes stand in front of the facets.
pub const FRONT_BYTES: usize = 84;

// Where their count begins.
pub const COUNT_AT: usize = 80;

// How many bytes a facet has.
pub const FACET_BYTES: usize = 50;

// 80 zeros, and the count of facets.
pub fn put_header(out: &mut [u8], n: u32)
    requires { 84 ≤ length out.old }
    ensures { out.new ≡ splice out.old 0 (replicate 80 0 ++ little n) }
{
    put_zeros(out, 0, COUNT_AT);
    put_u32(out, COUNT_AT, n);
}
