// A polygon's stamp: a word with a bit for each of its corners. Polygons that share a side have a bit in common.
ghost use Rattle.std.specs.Prelude.{◌≡◌, eqb};
ghost use Rattle.std.specs.Int.Bits.{bit_and};
ghost use Rattle.laws.specs.Stamps.{stamp_bit, stamp_of};
ghost use Rattle.records.specs.Values.{corners_from, Stands};

use records::corner::{corner_from, count_from};

// The bit of corner c.
fn stamp_bit(c: u32) -> u32
    ensures { result ≡ stamp_bit c }
{
    1u32 << (c % 32)
}

// The stamp of the polygon whose words start at `at`.
pub fn stamp_from(work: &[u32], at: usize) -> u32
    requires { Stands work.now at }
    ensures { result ≡ stamp_of (corners_from work.now at) }
{
    let n = count_from(work, at);
    let mut s = 0u32;
    for i in 0..n {
        s |= stamp_bit(corner_from(work, at, i));
    }
    s
}

// Whether two stamps have no bit in common.
pub fn are_apart(s: u32, t: u32) -> bool
    ensures { result ≡ eqb (bit_and s t) 0 }
{
    s & t == 0
}
