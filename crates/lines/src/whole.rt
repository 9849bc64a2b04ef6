// A cell read as a whole number, which may have a sign.
ghost use Rattle.std.specs.Prelude.{◌≡◌, ◌≤◌};
ghost use Rattle.rules.specs.Lines.{signed_in};

use crate::decimal::read_decimal;

// The number that a cell says: a decimal up to `most`, or `-` and one that is not 0. `most` is an i64.
pub fn read_signed(cell: &[u8], most: u64) -> Option<i64>
    requires { most ≤ 9223372036854775807 }
    ensures { result ≡ signed_in most cell.now }
{
    if cell.len() > 0 {
        if cell[0] == b'-' {
            let n = read_decimal(&cell[1..], 1, most)?;
            return Some(-(n as i64));
        }
    }
    let n = read_decimal(cell, 0, most)?;
    Some(n as i64)
}
