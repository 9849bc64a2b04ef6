// The bytes of a point and of a facet.
ghost use Rattle.std.specs.Prelude.{◌≡◌, ◌+◌, ◌≤◌, T, length};
ghost use Rattle.mem.specs.Slice.{splice};
ghost use Rattle.mem.specs.Packed.{packed};
ghost use Rattle.rules.specs.Stl.{little, coordinate, is_length, point_of, facet_of, facet_bytes};

use crate::bytes::{put_u32, put_zeros};
use crate::scale::Lengths;
use rules::Vertex;

// The pattern of n lengths of mm.
fn pattern(n: u16, mm: f32) -> u32
    requires { T (is_length mm) }
    ensures { result ≡ coordinate mm n }
{
    f32::to_bits(f32::from(n) * mm)
}

// The four bytes of n lengths of mm, from `at` on.
fn put_f32(out: &mut [u8], at: usize, n: u16, mm: f32)
    requires t { T (is_length mm) }
    requires at_in_bounds { at + 4 ≤ length out.old }
    ensures { out.new ≡ splice out.old at (little (coordinate mm n)) }
{
    let p = pattern(n, mm);
    put_u32(out, at, p);
}

// The three coordinates of a point, from `at` on.
fn put_point(out: &mut [u8], at: usize, v: Vertex, lengths: Lengths)
    requires t { T (is_length lengths.size) }
    requires t_2 { T (is_length lengths.height) }
    requires at_in_bounds { at + 12 ≤ length out.old }
    ensures { out.new ≡ splice out.old at (packed little (point_of lengths.size lengths.height v)) }
{
    put_f32(out, at, v.x, lengths.size);
    put_f32(out, at + 4, v.y, lengths.height);
    put_f32(out, at + 8, v.z, lengths.size);
}

// The 50 bytes of a facet, from `at` on.
pub fn put_facet(out: &mut [u8], at: usize, a: Vertex, b: Vertex, c: Vertex, lengths: Lengths)
    requires t { T (is_length lengths.size) }
    requires t_2 { T (is_length lengths.height) }
    requires at_in_bounds { at + 50 ≤ length out.old }
    ensures { out.new ≡ splice out.old at (facet_bytes (facet_of lengths.size lengths.height a b c)) }
{
    put_zeros(out, at, 12);
    put_point(out, at + 12, a, lengths);
    put_point(out, at + 24, b, lengths);
    put_point(out, at + 36, c, lengths);
    put_zeros(out, at + 48, 2);
}
