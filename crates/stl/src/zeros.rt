// Where zero is due, and refusal 73.
ghost use Rattle.std.specs.Prelude.{◌≡◌, ◌<◌, length};
ghost use Rattle.rules.specs.Stl.{zero_due, wrong_at, first_wrong};

// Whether byte i of a file is to be zero.
fn zero_due(i: usize) -> bool
    ensures { result ≡ zero_due i }
{
    if i < 80 {
        return true;
    }
    if i < 84 {
        return false;
    }
    let k = (i - 84) % 50;
    if k < 12 {
        return true;
    }
    48 <= k
}

// Whether byte i is not zero where zero is due.
fn wrong_at(file: &[u8], i: usize) -> bool
    requires { i < length file.now }
    ensures { result ≡ wrong_at file.now i }
{
    zero_due(i) && file[i] != 0
}

// The first byte that is not zero where zero is due.
pub fn first_wrong(file: &[u8]) -> Option<usize>
    ensures { result ≡ first_wrong file.now }
{
    (0..file.len()).find(|i| wrong_at(file, *i))
}
