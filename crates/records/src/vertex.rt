// A vertex of the work buffer: x, y, z, its mark, and one word that is kept for where it came from.
ghost use Rattle.std.specs.Prelude.{◌≡◌, ◌+◌, ◌≤◌, ◌<◌, length};
ghost use Rattle.mem.specs.Slice.{splice};
ghost use Rattle.rules.specs.Plane.{InGrid};
ghost use Rattle.rules.specs.Mesh.{place_of};
ghost use Rattle.records.specs.Layout.{vertex_size, vertex_words, vertices_at, Placed};

use crate::run::Run;
use rules::{Point, Vertex};

pub const VERTEX_SIZE: usize = 5;

// Where a vertex's words have its mark.
pub const MARK_AT: usize = 3;

// The words from `at` on become those of v, with no mark.
pub fn store_vertex(work: &mut [u32], at: usize, v: Vertex)
    requires { at + vertex_size ≤ length work.old }
    ensures { work.new ≡ splice work.old at (vertex_words v 0) }
{
    let words = [u32::from(v.x), u32::from(v.y), u32::from(v.z), 0, 0];
    work[at..at + VERTEX_SIZE].copy_from_slice(&words);
}

// Where vertex k stands.
pub fn place_at(work: &[u32], vertices: Run, k: usize) -> Point
    requires { Placed work.now vertices.at vertices.n × (k < vertices.n) }
    ensures { (result ≡ place_of (vertices_at work.now vertices.at vertices.n) k) × InGrid result }
{
    let at = vertices.at + k * VERTEX_SIZE;
    Point {
        x: work[at] as u16,
        z: work[at + 2] as u16,
    }
}
