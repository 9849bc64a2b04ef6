// A vertex is removed: the hole that it leaves is filled.
ghost use Rattle.std.specs.Prelude.{◌≡◌, ◌+◌, ◌-◌, ◌*◌, ◌≤◌, length, replicate};
ghost use Rattle.mem.specs.Slice.{splice};
ghost use Rattle.rules.specs.Removal.{remove_vertex};
ghost use Rattle.records.specs.Layout.{vertex_size, polygon_size, point_size};
ghost use Rattle.removals.specs.Site.{mesh_at, mesh_in, Fits};
ghost use Rattle.removals.specs.Removing.{RemoveReady, removed_to, mesh_after};

use crate::open::open_hole;
use crate::site::Site;
use holes::fill::fill_hole;
use records::counts::Counts;
use records::point::POINT_SIZE;
use records::polygon::POLYGON_SIZE;
use records::run::Run;
use records::vertex::VERTEX_SIZE;
use words::fill::fill;

// How many words of scratch the walk has for each polygon that has room.
const WALK_ROOM: usize = 13;

// Zeros in the place of the polygons from `from` up to `to`, and of the hole's points.
fn tidy_up(work: &mut [u32], s: Site, from: usize, to: usize, points: usize)
    requires { (from ≤ to) × (s.polygons + to * polygon_size ≤ s.scratch) × (s.scratch + points * point_size ≤ length work.old) }
    ensures { work.new ≡ splice (splice work.old (s.polygons + from * polygon_size) (replicate ((to - from) * polygon_size) 0)) s.scratch (replicate (points * point_size) 0) }
{
    fill(
        work,
        s.polygons + from * POLYGON_SIZE,
        (to - from) * POLYGON_SIZE,
        0,
    );
    fill(work, s.scratch, points * POINT_SIZE, 0);
}

// Zeros in the place of the mesh, and of the hole's points.
fn wipe_mesh(work: &mut [u32], s: Site, points: usize)
    requires { Fits work.old s × (s.scratch + points * point_size ≤ length work.old) }
    ensures { work.new ≡ splice (splice (splice work.old s.vertices (replicate (s.v * vertex_size) 0)) s.polygons (replicate (s.t * polygon_size) 0)) s.scratch (replicate (points * point_size) 0) }
{
    fill(work, s.vertices, s.v * VERTEX_SIZE, 0);
    fill(work, s.polygons, s.t * POLYGON_SIZE, 0);
    fill(work, s.scratch, points * POINT_SIZE, 0);
}

// The vertex goes from the mesh at s, and the hole is filled. The result says how many polygons there are then; with no ear to
// cut there is no mesh.
pub fn remove_vertex(work: &mut [u32], s: Site, n: Counts, rem: u32, nvp: usize) -> Option<usize>
    requires { RemoveReady work.old s n nvp rem }
    ensures answer { result ≡ removed_to (remove_vertex nvp rem (mesh_at work.old s n)) }
    ensures words { work.new ≡ mesh_in work.old s (mesh_after (remove_vertex nvp rem (mesh_at work.old s n))) }
{
    let h = open_hole(work, s, n, rem);
    let at = s.polygons + h.left * POLYGON_SIZE;
    let places = s.scratch + s.t * WALK_ROOM;
    let far = n.polygons.max(h.left + (h.points - 2));
    match fill_hole(
        work,
        Run {
            at: s.vertices,
            n: n.vertices - 1,
        },
        at,
        s.scratch,
        h.points,
        places,
        nvp,
    ) {
        Some(k) => {
            let np = h.left + k;
            tidy_up(work, s, np, far, h.points);
            Some(np)
        }
        None => {
            wipe_mesh(work, s, h.points);
            None
        }
    }
}
