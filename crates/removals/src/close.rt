// The chain of a walk becomes a hole.
ghost use Rattle.std.specs.Prelude.{◌+◌, ◌*◌, ◌≤◌, ◌<◌, length};
ghost use Rattle.records.specs.Layout.{point_size};
ghost use Rattle.removals.specs.Removing.{ClosedTo};

use records::point::{POINT_SIZE, load_point, store_point};
use rules::ChainPoint;

// If the last of the n points at q has the number of the first, it is dropped. The result says how many points the hole
// has.
pub fn close_hole(work: &mut [u32], q: usize, n: usize) -> usize
    requires { (0 < n) × (q + n * point_size ≤ length work.old) }
    ensures { ClosedTo work.old work.new q n result }
{
    let first = load_point(work, q, n, 0);
    let last = load_point(work, q, n, n - 1);
    if last.vertex == first.vertex {
        let gone = ChainPoint {
            vertex: 0,
            region: 0,
            code: 0,
        };
        store_point(work, q + (n - 1) * POINT_SIZE, gone);
        return n - 1;
    }
    n
}
