// One vertex takes its number: that of the vertex that is the same, or a new one.
ghost use Rattle.std.specs.Prelude.{◌≡◌, ◌+◌, ◌<◌, [], ◌∷◌, ◌++◌};
ghost use Rattle.rules.specs.Weld.{flagged};
ghost use Rattle.records.specs.Layout.{vertices_at, marks_at};
ghost use Rattle.weld.specs.Tables.{tabled, Room, Tabled, grown, Added, WeldedOne};

use crate::find::{Tables, find_vertex};
use crate::hash::compute_vertex_hash;
use records::vertex::{MARK_AT, VERTEX_SIZE, store_vertex};
use rules::Vertex;

// Vertex nv is v, with no mark: it becomes the first of its bucket, and the one that was first comes next.
fn put_vertex(work: &mut [u32], t: Tables, nv: usize, v: Vertex)
    requires { Tabled work.old t nv × Room work.old t (nv + 1) }
    ensures { work.new ≡ tabled work.old t (vertices_at work.old t.vertices nv ++ (v ∷ [])) (marks_at work.old t.vertices nv ++ (0 ∷ [])) }
{
    let b = t.buckets + compute_vertex_hash(v.x, v.z) as usize;
    let first = work[b];
    work[b] = (nv + 1) as u32;
    store_vertex(work, t.vertices + nv * VERTEX_SIZE, v);
    work[t.nexts + nv] = first;
}

// The number of v: that of the highest-numbered vertex that is the same, or nv, and then v is vertex nv.
pub fn add_vertex(work: &mut [u32], t: Tables, nv: usize, v: Vertex, height: u16) -> usize
    requires { Tabled work.old t nv × Room work.old t (nv + 1) }
    ensures { Added height work.old work.new t nv v result }
{
    match find_vertex(work, t, nv, v, height) {
        Some(k) => k,
        None => {
            put_vertex(work, t, nv, v);
            nv
        }
    }
}

// The mark of vertex k is set where the flag is 1.
fn mark_vertex(work: &mut [u32], t: Tables, nv: usize, k: usize, flag: u16)
    requires { Tabled work.old t nv × (k < nv) }
    ensures { work.new ≡ tabled work.old t (vertices_at work.old t.vertices nv) (flagged flag k (marks_at work.old t.vertices nv)) }
{
    if flag == 1 {
        work[t.vertices + k * VERTEX_SIZE + MARK_AT] = 1;
    }
}

// How many vertices there are once one has the number k.
pub fn grow(nv: usize, k: usize) -> usize
    requires { nv < 4294967295 }
    ensures { result ≡ grown nv k }
{
    if k == nv { nv + 1 } else { nv }
}

// R3 for one vertex with its flag: the number that it takes.
pub fn weld_vertex(
    work: &mut [u32],
    t: Tables,
    nv: usize,
    v: Vertex,
    flag: u16,
    height: u16,
) -> usize
    requires { Tabled work.old t nv × Room work.old t (nv + 1) }
    ensures { WeldedOne height work.old work.new t nv v flag result }
{
    let k = add_vertex(work, t, nv, v, height);
    mark_vertex(work, t, grow(nv, k), k, flag);
    k
}
