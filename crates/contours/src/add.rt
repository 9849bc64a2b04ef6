// One contour is added to the mesh.
ghost use Rattle.std.specs.Prelude.{◌≡◌, length};
ghost use Rattle.rules.specs.Ears as Rules;
ghost use Rattle.contours.specs.Cutting.{places_in};
ghost use Rattle.contours.specs.Ground.{ground_in, mesh_at};
ghost use Rattle.contours.specs.Adding.{AddReady, grown_by, added_of};

use crate::cut::cut_contour;
use crate::ground::{Contour, Ground};
use crate::shape::mesh_contour;
use ears::cut::NoEar;
use records::counts::Counts;
use records::polygon::POLYGON_SIZE;
use records::run::Run;
use weld::contour::weld_contour;
use weld::find::Tables;
use words::fill::fill;

// Vertices whose heights differ by at most this much are welded.
const WELD_HEIGHT: u16 = 2;

// The contour c of a job's numbers is cut, its vertices are welded to the nv of the mesh at g, and its triangles are merged
// and stored behind the np polygons. The result says how many the mesh has then. A contour without an ear leaves the mesh as
// it was.
pub fn add_contour(
    work: &mut [u32],
    g: Ground,
    nv: usize,
    np: usize,
    nvp: usize,
    numbers: &[u16],
    c: Contour,
) -> Result<Counts, NoEar>
    requires { AddReady work.old numbers.now g nv np nvp c }
    ensures answer { result ≡ added_of (grown_by nvp numbers.now c (mesh_at work.old g nv np) (Rules.triangulate (places_in numbers.now c.first c.n))) (Rules.triangulate (places_in numbers.now c.first c.n)) }
    ensures words { work.new ≡ ground_in (length work.old) g (grown_by nvp numbers.now c (mesh_at work.old g nv np) (Rules.triangulate (places_in numbers.now c.first c.n))) }
{
    let po = g.scratch + g.v;
    match cut_contour(work, numbers, c.first, c.n, po) {
        Ok(k) => {
            let t = Tables {
                buckets: g.buckets,
                vertices: g.vertices,
                nexts: g.nexts,
            };
            let v = weld_contour(work, t, nv, g.scratch, numbers, c.first, c.n, WELD_HEIGHT);
            let at = g.polygons + np * POLYGON_SIZE;
            let to = po + c.n * 3;
            let p = mesh_contour(
                work,
                Run {
                    at: g.vertices,
                    n: v,
                },
                at,
                g.scratch,
                to,
                k,
                nvp,
                po,
                c,
            );
            fill(work, g.scratch, c.n, 0);
            fill(work, po, c.n * 6 - 6, 0);
            Ok(Counts {
                vertices: v,
                polygons: np + p,
            })
        }
        Err(e) => {
            fill(work, po, c.n * 6 - 6, 0);
            Err(e)
        }
    }
}
