// The line at a place of a text.
ghost use Rattle.std.specs.Prelude.{◌≡◌, ◌≤◌, length};
ghost use Rattle.lines.specs.Read.{numbers_at, widened, line_read};

use crate::numbers::read_numbers;
use crate::scan::find;

// A line's numbers, and the place behind its LF.
#[derive(Clone, Copy)]
pub struct LineRead<const N: usize> {
    pub numbers: [u64; N],
    pub next: usize,
}

// The numbers of the line that begins at `at`, as `read_numbers` reads them; a line that is missing, or that no LF ends, has none.
pub fn read_line<const N: usize>(
    text: &[u8],
    at: usize,
    name: &[u8],
    least: u64,
    mosts: &[u64],
) -> Option<LineRead<N>>
    requires { (at ≤ length text.now) × (length mosts.now ≤ N) }
    ensures read { result ≡ line_read text.now at (widened N (numbers_at text.now at name.now least mosts.now)) }
    ensures whole { length mosts.now ≡ N → result ≡ line_read text.now at (numbers_at text.now at name.now least mosts.now) }
{
    let e = find(text, at, b'\n');
    if e < text.len() {
        let numbers = read_numbers(&text[at..e], name, least, mosts)?;
        return Some(LineRead {
            numbers,
            next: e + 1,
        });
    }
    None
}
