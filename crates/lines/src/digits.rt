// A number printed.
ghost use Rattle.rules.specs.Lines.{decimal, signed};
ghost use Rattle.lines.specs.Print.{Room, Printed};

use crate::print::put_text;

// The digits of n, without leading zeros.
pub fn put_decimal(out: &mut [u8], at: usize, n: u64) -> usize
    requires { Room out.old (decimal n) at }
    ensures { Printed (decimal n) out.old out.new at result }
{
    let mut digits = [0u8; 20];
    let mut first = 19;
    let mut rest = n;
    while rest > 9 {
        digits[first] = b'0' + (rest % 10) as u8;
        rest /= 10;
        first -= 1;
    }
    digits[first] = b'0' + rest as u8;
    put_text(out, at, &digits[first..])
}

// The digits of z, with `-` in front if it is below zero.
pub fn put_signed(out: &mut [u8], at: usize, z: i64) -> usize
    requires { Room out.old (signed z) at }
    ensures { Printed (signed z) out.old out.new at result }
{
    if z < 0 {
        out[at] = b'-';
        return put_decimal(out, at + 1, (-(z + 1)) as u64 + 1);
    }
    put_decimal(out, at, z as u64)
}
