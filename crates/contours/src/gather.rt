// All contours of a job, one after the other.
ghost use Rattle.std.specs.Prelude.{◌≡◌, ◌<◌, length};
ghost use Rattle.rules.specs.Build.{add_all};
ghost use Rattle.rules.specs.declared.Refusal.TheVariants.{NoEarInContour};
ghost use Rattle.checks.specs.Answers.{no_grid, job_in};
ghost use Rattle.contours.specs.Ground.{ground_in, mesh_at};
ghost use Rattle.contours.specs.Gathering.{contour_in, NextReady, next_mesh, next_answer, GatherReady, gathered_of, mesh_of};

use crate::add::add_contour;
use crate::ground::{Contour, Ground};
use checks::contour_set::ContourSet;
use ears::cut::NoEar;
use records::counts::Counts;
use rules::Refusal;
use words::fill::fill;

// Contours of fewer vertices are skipped.
const LEAST_VERTICES: usize = 3;

// This contour has no ear to cut, after so many triangles.
#[derive(Clone, Copy, Debug, PartialEq, Eq)]
pub struct NoEarIn {
    pub contour: usize,
    pub after: usize,
}

// Reply 7 says which contour.
impl From<NoEarIn> for Refusal {
    ghost from_gives = { λ e r. r ≡ NoEarInContour e.contour };

    fn from(e: NoEarIn) -> Refusal {
        Refusal::NoEarInContour(e.contour as u64)
    }
}

// Contour c of a job, which begins at the vertex `first`.
fn contour_at(set: &ContourSet<'_>, c: usize, first: usize) -> Contour
    requires { (c < length set.now.lengths.now) × (c < length set.now.regions.now) × (c < length set.now.codes.now) }
    ensures { result ≡ contour_in set.now.lengths.now set.now.regions.now set.now.codes.now c first }
{
    Contour {
        first,
        n: set.lengths[c] as usize,
        region: set.regions[c],
        code: set.codes[c],
    }
}

// The contour c is added, or skipped. The result says how many the mesh has then.
fn add_next(
    work: &mut [u32],
    g: Ground,
    nv: usize,
    np: usize,
    nvp: usize,
    numbers: &[u16],
    c: Contour,
) -> Result<Counts, NoEar>
    requires { NextReady work.old numbers.now g nv np nvp c }
    ensures answer { result ≡ next_answer nvp numbers.now c (mesh_at work.old g nv np) }
    ensures words { work.new ≡ ground_in (length work.old) g (next_mesh nvp numbers.now c (mesh_at work.old g nv np)) }
{
    if c.n < LEAST_VERTICES {
        return Ok(Counts {
            vertices: nv,
            polygons: np,
        });
    }
    add_contour(work, g, nv, np, nvp, numbers, c)
}

// All contours of a job that passes the checks become a mesh at g, and the result says how many it has; or one has no ear to
// cut, and zeros are left.
pub fn add_contours(
    work: &mut [u32],
    g: Ground,
    nvp: usize,
    set: &ContourSet<'_>,
) -> Result<Counts, NoEarIn>
    requires { GatherReady work.old g (job_in nvp no_grid set.now) }
    ensures answer { result ≡ gathered_of (add_all (job_in nvp no_grid set.now)) }
    ensures words { work.new ≡ ground_in (length work.old) g (mesh_of (add_all (job_in nvp no_grid set.now))) }
{
    let mut n = Counts {
        vertices: 0,
        polygons: 0,
    };
    let mut first = 0;
    for c in 0..set.lengths.len() {
        let k = contour_at(set, c, first);
        match add_next(work, g, n.vertices, n.polygons, nvp, set.numbers, k) {
            Ok(now) => {
                n = now;
            }
            Err(e) => {
                let all = work.len();
                fill(work, 0, all, 0);
                return Err(NoEarIn {
                    contour: c,
                    after: e.after,
                });
            }
        }
        first += k.n;
    }
    Ok(n)
}
