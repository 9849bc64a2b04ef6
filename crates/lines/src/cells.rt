// Cells of numbers printed, each with its tab in front.
ghost use Rattle.std.specs.Prelude.{◌≡◌, ℕ};
ghost use Rattle.mem.specs.Packed.{packed};
ghost use Rattle.rules.specs.Lines.{cell, signed_cell};
ghost use Rattle.lines.specs.Print.{Room, Printed};

use crate::digits::{put_decimal, put_signed};

// One number.
pub fn put_cell(out: &mut [u8], at: usize, n: u64) -> usize
    requires { Room out.old (cell n) at }
    ensures { Printed (cell n) out.old out.new at result }
{
    out[at] = b'\t';
    put_decimal(out, at + 1, n)
}

// One number with its sign.
pub fn put_signed_cell(out: &mut [u8], at: usize, z: i64) -> usize
    requires { Room out.old (signed_cell z) at }
    ensures { Printed (signed_cell z) out.old out.new at result }
{
    out[at] = b'\t';
    put_signed(out, at + 1, z)
}

// A number of some width.
pub trait Number: Copy {
    // The number that a value is.
    ghost says: { Self → ℕ };

    fn word(self) -> u64
        ensures { result ≡ says self };
}

impl Number for u16 {
    ghost says = { λ n. n };

    fn word(self) -> u64 {
        u64::from(self)
    }
}

impl Number for u32 {
    ghost says = { λ n. n };

    fn word(self) -> u64 {
        u64::from(self)
    }
}

// Numbers of one width.
pub fn put_cells<T: Number>(out: &mut [u8], at: usize, ns: &[T]) -> usize
    requires { Room out.old (packed (λ n. cell (T.says n)) ns.now) at }
    ensures { Printed (packed (λ n. cell (T.says n)) ns.now) out.old out.new at result }
{
    let mut to = at;
    for n in ns {
        to = put_cell(out, to, n.word());
    }
    to
}
