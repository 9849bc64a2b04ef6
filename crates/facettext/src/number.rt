// A coordinate is printed: as millimetres with four decimals, or by its bits.
ghost use Rattle.std.specs.Prelude.{◌<◌, ◌≡◌};
ghost use Rattle.rules.specs.StlText.{four_digits, decimals, hex_digit, bits_text, sign_text, coordinate_text};
ghost use Rattle.lines.specs.Print.{Room, Printed};

use crate::coordinate::{is_negative, is_shown, ten_thousandths};
use lines::digits::put_decimal;

// Four digits.
fn put_four(out: &mut [u8], at: usize, n: u64) -> usize
    requires n_bound { n < 10000 }
    requires room { Room out.old (four_digits n) at }
    ensures { Printed (four_digits n) out.old out.new at result }
{
    out[at] = b'0' + (n / 1000) as u8;
    out[at + 1] = b'0' + (n / 100 % 10) as u8;
    out[at + 2] = b'0' + (n / 10 % 10) as u8;
    out[at + 3] = b'0' + (n % 10) as u8;
    at + 4
}

// A number of ten-thousandths, with a point and four decimals.
fn put_decimals(out: &mut [u8], at: usize, n: u64) -> usize
    requires { Room out.old (decimals n) at }
    ensures { Printed (decimals n) out.old out.new at result }
{
    let a = put_decimal(out, at, n / 10000);
    out[a] = b'.';
    put_four(out, a + 1, n % 10000)
}

// A hex digit.
fn hex_digit(d: u32) -> u8
    requires { d < 16 }
    ensures { result ≡ hex_digit d }
{
    if d < 10 {
        return b'0' + d as u8;
    }
    b'a' + (d - 10) as u8
}

// A pattern by its bits.
fn put_bits(out: &mut [u8], at: usize, p: u32) -> usize
    requires { Room out.old (bits_text p) at }
    ensures { Printed (bits_text p) out.old out.new at result }
{
    out[at] = b'#';
    let mut shift = 268435456u32;
    for i in 0..8 {
        out[at + 1 + i] = hex_digit(p / shift % 16);
        shift /= 16;
    }
    at + 9
}

// A minus sign if it is below zero.
fn put_sign(out: &mut [u8], at: usize, p: u32) -> usize
    requires { Room out.old (sign_text p) at }
    ensures { Printed (sign_text p) out.old out.new at result }
{
    if is_negative(p) {
        out[at] = b'-';
        return at + 1;
    }
    at
}

// A coordinate.
pub fn put_coordinate(out: &mut [u8], at: usize, p: u32) -> usize
    requires { Room out.old (coordinate_text p) at }
    ensures { Printed (coordinate_text p) out.old out.new at result }
{
    if is_shown(p) {
        let a = put_sign(out, at, p);
        return put_decimals(out, a, ten_thousandths(p));
    }
    put_bits(out, at, p)
}
