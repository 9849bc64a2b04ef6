// A side of a removal in the work buffer: where it starts, where it ends, its region, its area code.
ghost use Rattle.std.specs.Prelude.{◌≡◌, ◌+◌, ◌*◌, ◌≤◌, ◌<◌, length, get_or};
ghost use Rattle.mem.specs.Slice.{splice};
ghost use Rattle.rules.specs.Removal.{no_side};
ghost use Rattle.records.specs.Layout.{side_size, side_words, sides_at};

use rules::Side;

pub const SIDE_SIZE: usize = 4;

// Side i of the n at o.
pub fn load_side(work: &[u32], o: usize, n: usize, i: usize) -> Side
    requires { (o + n * side_size ≤ length work.now) × (i < n) }
    ensures { result ≡ get_or (sides_at work.now o n) i no_side }
{
    let at = o + i * SIDE_SIZE;
    Side {
        start: work[at],
        end: work[at + 1],
        region: work[at + 2],
        code: work[at + 3],
    }
}

// The words from `at` on become those of s.
pub fn store_side(work: &mut [u32], at: usize, s: Side)
    requires { at + side_size ≤ length work.old }
    ensures { work.new ≡ splice work.old at (side_words s) }
{
    work[at..at + SIDE_SIZE].copy_from_slice(&[s.start, s.end, s.region, s.code]);
}
