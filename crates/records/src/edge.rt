// An edge in the work buffer: its two vertices, its polygon and side, and the polygon and side that it is joined to.
ghost use Rattle.std.specs.Prelude.{◌≡◌, ◌+◌, ◌*◌, ◌≤◌, ◌<◌, length, get_or};
ghost use Rattle.mem.specs.Slice.{splice};
ghost use Rattle.rules.specs.Links.{no_edge};
ghost use Rattle.records.specs.Layout.{edge_size, edge_words, edges_at};

use rules::Edge;

pub const EDGE_SIZE: usize = 6;

// Edge i of the n at o.
pub fn load_edge(work: &[u32], o: usize, n: usize, i: usize) -> Edge
    requires { (o + n * edge_size ≤ length work.now) × (i < n) }
    ensures { result ≡ get_or (edges_at work.now o n) i no_edge }
{
    let at = o + i * EDGE_SIZE;
    Edge {
        low: work[at],
        high: work[at + 1],
        poly: work[at + 2],
        side: work[at + 3],
        other: work[at + 4],
        at: work[at + 5],
    }
}

// The words from `at` on become those of e.
pub fn store_edge(work: &mut [u32], at: usize, e: Edge)
    requires { at + edge_size ≤ length work.old }
    ensures { work.new ≡ splice work.old at (edge_words e) }
{
    work[at..at + EDGE_SIZE].copy_from_slice(&[e.low, e.high, e.poly, e.side, e.other, e.at]);
}
