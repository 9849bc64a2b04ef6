// A coordinate's pattern: its parts, and its ten-thousandths of a millimetre.
ghost use Rattle.std.specs.Prelude.{◌≡◌, true, ◌^◌, ◌<◌};
ghost use Rattle.rules.specs.StlText.{is_negative, is_shown, exponent_of, significand, power_of, ten_thousandths};

// Whether it is below zero.
pub fn is_negative(p: u32) -> bool
    ensures { result ≡ is_negative p }
{
    2147483648 <= p
}

// Its exponent.
fn exponent_of(p: u32) -> usize
    ensures { result ≡ exponent_of p }
{
    (p / 8388608 % 256) as usize
}

// Whether it is printed as a number: it is finite, and below 2 to the 50.
pub fn is_shown(p: u32) -> bool
    ensures { result ≡ is_shown p }
{
    exponent_of(p) < 177
}

// Its significand.
fn significand_of(p: u32) -> u64
    ensures { result ≡ significand p }
{
    let fraction = (p % 8388608) as u64;
    if exponent_of(p) == 0 {
        return fraction;
    }
    8388608 + fraction
}

// The power of two that its significand counts, over 2 to the 150.
fn power_of(p: u32) -> usize
    ensures { result ≡ power_of p }
{
    let e = exponent_of(p);
    if e == 0 {
        return 1;
    }
    e
}

// 2 to the n.
fn two_to(n: usize) -> u64
    requires { n < 64 }
    ensures { result ≡ 2 ^ n }
{
    1u64 << n
}

// Its ten-thousandths of a millimetre, the nearest number of them.
pub fn ten_thousandths(p: u32) -> u64
    requires { is_shown p ≡ true }
    ensures { result ≡ ten_thousandths p }
{
    let n = significand_of(p) * 10000;
    let e = power_of(p);
    if e >= 150 {
        return n * two_to(e - 150);
    }
    let d = 150 - e;
    if d > 40 {
        return 0;
    }
    (n + two_to(d - 1)) / two_to(d)
}
