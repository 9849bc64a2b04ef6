// A point of the chain in the work buffer: its vertex, its region, its area code.
ghost use Rattle.std.specs.Prelude.{◌≡◌, ◌+◌, ◌*◌, ◌≤◌, ◌<◌, length, get_or};
ghost use Rattle.mem.specs.Slice.{splice};
ghost use Rattle.rules.specs.Removal.{no_point};
ghost use Rattle.records.specs.Layout.{point_size, point_words, points_at};

use rules::ChainPoint;

pub const POINT_SIZE: usize = 3;

// Point i of the n at o.
pub fn load_point(work: &[u32], o: usize, n: usize, i: usize) -> ChainPoint
    requires { (o + n * point_size ≤ length work.now) × (i < n) }
    ensures { result ≡ get_or (points_at work.now o n) i no_point }
{
    let at = o + i * POINT_SIZE;
    ChainPoint {
        vertex: work[at],
        region: work[at + 1],
        code: work[at + 2],
    }
}

// The words from `at` on become those of c.
pub fn store_point(work: &mut [u32], at: usize, c: ChainPoint)
    requires { at + point_size ≤ length work.old }
    ensures { work.new ≡ splice work.old at (point_words c) }
{
    work[at..at + POINT_SIZE].copy_from_slice(&[c.vertex, c.region, c.code]);
}
