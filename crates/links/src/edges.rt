// The records of sides, chained by their lower vertex: one more, the newest that is free, and one joined.
ghost use Rattle.std.specs.Prelude.{◌≡◌, [], ◌∷◌, ◌++◌, ◌+◌, ◌<◌, Some};
ghost use Rattle.rules.specs.Links.{is_free, newest, join_at};
ghost use Rattle.records.specs.Layout.{edges_at};
ghost use Rattle.links.specs.Tables.{edged, Room, Edged};

use records::edge::{EDGE_SIZE, load_edge, store_edge};
use rules::Edge;
use words::places::link_at;

// Where the words of the records stand: for each vertex the newest record that starts there, the records, and for each
// record the next older one of its vertex.
#[derive(Clone, Copy)]
pub struct EdgeTables {
    pub firsts: usize,
    pub edges: usize,
    pub nexts: usize,
}

// Record ne is e: it becomes the first of its lower vertex, and the one that was first comes next.
pub fn put_edge(work: &mut [u32], t: EdgeTables, nv: usize, ne: usize, e: Edge)
    requires { Edged work.old t nv ne × Room work.old t nv (ne + 1) × (e.low < nv) }
    ensures { work.new ≡ edged work.old t nv (edges_at work.old t.edges ne ++ (e ∷ [])) }
{
    let b = t.firsts + e.low as usize;
    let first = work[b];
    work[b] = (ne + 1) as u32;
    store_edge(work, t.edges + ne * EDGE_SIZE, e);
    work[t.nexts + ne] = first;
}

// Whether e runs from low to high and is not yet joined to another polygon.
fn is_free(e: Edge, low: u32, high: u32) -> bool
    ensures { result ≡ is_free low high e }
{
    (e.low == low) & ((e.high == high) & (e.other == e.poly))
}

// The newest of the ne records from low to high that is not yet joined. Those of its lower vertex are looked at from the
// newest on.
pub fn find_free(
    work: &[u32],
    t: EdgeTables,
    nv: usize,
    ne: usize,
    low: u32,
    high: u32,
) -> Option<usize>
    requires { Edged work.now t nv ne × (low < nv) }
    ensures { result ≡ newest low high (edges_at work.now t.edges ne) }
{
    let mut link = link_at(work, t.firsts + low as usize);
    while 0 < link {
        let k = link - 1;
        if is_free(load_edge(work, t.edges, ne, k), low, high) {
            return Some(k);
        }
        link = link_at(work, t.nexts + k);
    }
    None
}

// Record k is joined to side j of polygon i.
pub fn join_edge(work: &mut [u32], t: EdgeTables, nv: usize, ne: usize, k: usize, i: u32, j: u32)
    requires { Edged work.old t nv ne × (k < ne) }
    ensures { work.new ≡ edged work.old t nv (join_at i j (edges_at work.old t.edges ne) (Some k)) }
{
    let e = load_edge(work, t.edges, ne, k);
    let joined = Edge {
        other: i,
        at: j,
        ..e
    };
    store_edge(work, t.edges + k * EDGE_SIZE, joined);
}
