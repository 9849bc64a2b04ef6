// The vertex that is the same as a given one, looked for in its bucket.
ghost use Rattle.std.specs.Prelude.{◌≡◌, ◌+◌, ◌<◌, ◌≤◌, length};
ghost use Rattle.mem.specs.Slice.{view};
ghost use Rattle.rules.specs.Weld.{highest_below};
ghost use Rattle.records.specs.Layout.{vertex_size, vertex_in, vertices_at};
ghost use Rattle.weld.specs.Tables.{agree, Tabled};

use crate::hash::compute_vertex_hash;
use records::vertex::VERTEX_SIZE;
use rules::Vertex;
use words::places::link_at;

// Where the weld's words stand: 4,096 buckets, the vertices' records, and for each vertex the next one in its bucket.
#[derive(Clone, Copy, Debug, PartialEq, Eq)]
pub struct Tables {
    pub buckets: usize,
    pub vertices: usize,
    pub nexts: usize,
}

// Whether the vertex whose words start at `at` agrees with v in coordinate c: x, y up to the height, and z.
fn agrees(work: &[u32], at: usize, v: Vertex, height: u16, c: usize) -> bool
    requires { at + vertex_size ≤ length work.now }
    ensures { result ≡ agree height (vertex_in (view work.now at vertex_size)) v c }
{
    match c {
        0 => work[at] == u32::from(v.x),
        1 => work[at + 1].abs_diff(u32::from(v.y)) <= u32::from(height),
        _ => work[at + 2] == u32::from(v.z),
    }
}

// The highest-numbered of the nv vertices that is the same as v. Those of its bucket are looked at from the newest on, and
// a coordinate that doesn't agree sends the search on to the next of them.
pub fn find_vertex(work: &[u32], t: Tables, nv: usize, v: Vertex, height: u16) -> Option<usize>
    requires { Tabled work.now t nv }
    ensures { result ≡ highest_below height (vertices_at work.now t.vertices nv) v nv }
{
    let mut found = None;
    let mut link = link_at(work, t.buckets + compute_vertex_hash(v.x, v.z) as usize);
    'search: while 0 < link {
        let k = link - 1;
        let at = t.vertices + k * VERTEX_SIZE;
        link = link_at(work, t.nexts + k);
        for c in 0..3 {
            if !agrees(work, at, v, height, c) {
                continue 'search;
            }
        }
        found = Some(k);
        break 'search;
    }
    found
}
