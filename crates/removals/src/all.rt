// All marked vertices are tried.
ghost use Rattle.std.specs.Prelude.{◌≡◌, ◌<◌};
ghost use Rattle.rules.specs.Removal as Rules;
ghost use Rattle.rules.specs.declared.Refusal.TheVariants.{NoEarInHole};
ghost use Rattle.records.specs.Layout.{most_corners};
ghost use Rattle.holes.specs.Verdict.{Tested};
ghost use Rattle.removals.specs.Site.{mesh_at, mesh_in, Stands};
ghost use Rattle.removals.specs.Removing.{tried_to, mesh_left};

use crate::remove::remove_vertex;
use crate::site::Site;
use holes::test::can_remove_vertex;
use records::counts::Counts;
use records::run::Run;
use records::vertex::{MARK_AT, VERTEX_SIZE};
use rules::Refusal;

// The hole of this vertex has no ear to cut.
#[derive(Clone, Copy, Debug, PartialEq, Eq)]
pub struct NoEarAt {
    pub vertex: usize,
}

// Reply 8 says which vertex.
impl From<NoEarAt> for Refusal {
    ghost from_gives = { λ e r. r ≡ NoEarInHole e.vertex };

    fn from(e: NoEarAt) -> Refusal {
        Refusal::NoEarInHole(e.vertex as u64)
    }
}

// Whether vertex i of the mesh at s is marked and can go.
fn goes(work: &mut [u32], s: Site, n: Counts, i: usize) -> bool
    requires { Stands work.old s n most_corners × (i < n.vertices) }
    ensures { Tested (Rules.goes i (mesh_at work.old s n)) work.old result work.new }
{
    if work[s.vertices + i * VERTEX_SIZE + MARK_AT] == 1 {
        return can_remove_vertex(
            work,
            Run {
                at: s.polygons,
                n: n.polygons,
            },
            s.scratch,
            i as u32,
        );
    }
    false
}

// The marked vertices of the mesh at s are tried from 0 up, and those go that can; after a removal the same number is
// tried again. The result says what is left; with no ear to cut in a hole there is no mesh.
pub fn remove_all(work: &mut [u32], s: Site, n: Counts, nvp: usize) -> Result<Counts, NoEarAt>
    requires { Stands work.old s n nvp }
    ensures answer { result ≡ tried_to (Rules.remove_all nvp (mesh_at work.old s n)) }
    ensures words { work.new ≡ mesh_in work.old s (mesh_left (Rules.remove_all nvp (mesh_at work.old s n))) }
{
    let mut c = n;
    let mut i = 0;
    while i < c.vertices {
        if goes(work, s, c, i) {
            let Some(polygons) = remove_vertex(work, s, c, i as u32, nvp) else {
                return Err(NoEarAt { vertex: i });
            };
            c = Counts {
                vertices: c.vertices - 1,
                polygons,
            };
        } else {
            i += 1;
        }
    }
    Ok(c)
}
