// The bucket of a vertex.
ghost use Rattle.std.specs.Prelude.{◌≡◌, ◌<◌};
ghost use Rattle.rules.specs.Weld.{bucket};
ghost use Rattle.weld.specs.Tables.{bucket_count};

// The low 12 bits of 0x8da6b343·x + 0xcb1ab31f·z, whose products and sum drop every bit above 32.
pub fn compute_vertex_hash(x: u16, z: u16) -> u32
    ensures { (result ≡ bucket x z) × (result < bucket_count) }
{
    let a = 0x8da6_b343_u32.wrapping_mul(u32::from(x));
    let b = 0xcb1a_b31f_u32.wrapping_mul(u32::from(z));
    a.wrapping_add(b) & 0xfff
}
