// A line of numbers.
ghost use Rattle.std.specs.Prelude.{◌≡◌, ◌≤◌, length};
ghost use Rattle.rules.specs.Lines.{tab_byte, parts, numbers_of};
ghost use Rattle.lines.specs.Read.{said, widened, RowRead};

use crate::decimal::read_decimal;
use crate::scan::{find, is_same_text};

// Whether a line has this name and then a decimal for each of `mosts`, from `least` to that limit. Its numbers, up to the
// first bad cell, go to the beginning of `values`.
pub fn read_row(line: &[u8], name: &[u8], least: u64, mosts: &[u64], values: &mut [u64]) -> bool
    requires { length mosts.now ≤ length values.old }
    ensures { RowRead name.now least mosts.now (parts tab_byte line.now) result
        values.old values.new }
{
    let mut at = find(line, 0, b'\t');
    if is_same_text(&line[..at], name) {
        for i in 0..mosts.len() {
            if at >= line.len() {
                return false;
            }
            let from = at + 1;
            at = find(line, from, b'\t');
            match read_decimal(&line[from..at], least, mosts[i]) {
                None => {
                    return false;
                }
                Some(v) => {
                    values[i] = v;
                }
            }
        }
        return at == line.len();
    }
    false
}

// The numbers of a line that has this name and then a decimal for each of `mosts`, from `least` to that limit; 0 where there is none.
pub fn read_numbers<const N: usize>(
    line: &[u8],
    name: &[u8],
    least: u64,
    mosts: &[u64],
) -> Option<[u64; N]>
    requires { length mosts.now ≤ N }
    ensures read { result ≡ said (widened N (numbers_of name.now least mosts.now (parts tab_byte line.now))) }
    ensures whole { length mosts.now ≡ N → result ≡ said (numbers_of name.now least mosts.now (parts tab_byte line.now)) }
{
    let mut values = [0u64; N];
    if read_row(line, name, least, mosts, &mut values) {
        return Some(values);
    }
    None
}
