// A text printed.
ghost use Rattle.lines.specs.Print.{Room, Printed};

// The text at `at`; the answer is the place behind it.
pub fn put_text(out: &mut [u8], at: usize, text: &[u8]) -> usize
    requires { Room out.old text.now at }
    ensures { Printed text.now out.old out.new at result }
{
    let end = at + text.len();
    out[at..end].copy_from_slice(text);
    end
}
