// A cell read as a decimal.
ghost use Rattle.std.specs.Prelude.{◌≡◌};
ghost use Rattle.rules.specs.Lines.{decimal_in};

// The number that a cell says: digits, without leading zeros, from `least` to `most`.
pub fn read_decimal(cell: &[u8], least: u64, most: u64) -> Option<u64>
    ensures { result ≡ decimal_in least most cell.now }
{
    if cell.is_empty() {
        return None;
    }
    if cell[0] == b'0' && cell.len() > 1 {
        return None;
    }
    let mut v = 0u64;
    for c in cell {
        if !c.is_ascii_digit() {
            return None;
        }
        v = v.checked_mul(10)?.checked_add(u64::from(*c - b'0'))?;
        if v > most {
            return None;
        }
    }
    if v < least {
        return None;
    }
    Some(v)
}
