// A vertex of the mesh goes: those behind it move down by one.
ghost use Rattle.std.specs.Prelude.{◌≡◌, ◌++◌, ◌≤◌, ◌<◌, length, drop, replicate};
ghost use Rattle.mem.specs.Slice.{splice};
ghost use Rattle.rules.specs.Lists.{without};
ghost use Rattle.records.specs.Layout.{vertex_size, vertices_at, marks_at, vertex_records};
ghost use Rattle.holes.specs.Clear.{TidyVertices};

use records::run::Run;
use records::vertex::VERTEX_SIZE;
use words::fill::fill;
use words::moves::move_down;

// The first vertex of the part goes, those behind it move down by one, and zeros come in at the end.
fn drop_first(part: &mut [u32])
    requires { vertex_size ≤ length part.old }
    ensures { part.new ≡ drop vertex_size part.old ++ replicate vertex_size 0 }
{
    let n = part.len() - VERTEX_SIZE;
    move_down(part, VERTEX_SIZE, n);
    fill(part, n, VERTEX_SIZE, 0);
}

// Of the vertices, vertex i goes.
pub fn remove_record(work: &mut [u32], vertices: Run, i: usize)
    requires { TidyVertices work.old vertices.at vertices.n × (i < vertices.n) }
    ensures { work.new ≡ splice work.old vertices.at (vertex_records (without (vertices_at work.old vertices.at vertices.n) i) (without (marks_at work.old vertices.at vertices.n) i) ++ replicate vertex_size 0) }
{
    let a = vertices.at + i * VERTEX_SIZE;
    let e = vertices.at + vertices.n * VERTEX_SIZE;
    drop_first(&mut work[a..e]);
}
