// Where a byte stands in a text, and whether two texts are the same.
ghost use Rattle.std.specs.Prelude.{◌≡◌, ◌+◌, ◌≤◌, length, drop};
ghost use Rattle.rules.specs.Lines.{is_same_text};
ghost use Rattle.lines.specs.Scan.{place_of};

// The first place from `from` on where the byte b stands, or the end of the text.
pub fn find(text: &[u8], from: usize, b: u8) -> usize
    requires { from ≤ length text.now }
    ensures { (result ≡ from + place_of b (drop from text.now)) × (result ≤ length text.now) }
{
    match text[from..].iter().position(|c| *c == b) {
        Some(k) => from + k,
        None => text.len(),
    }
}

// Whether two texts are the same.
pub fn is_same_text(a: &[u8], b: &[u8]) -> bool
    ensures { result ≡ is_same_text a.now b.now }
{
    a == b
}
