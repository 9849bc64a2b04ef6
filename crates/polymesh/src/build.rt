// A job that has passed the checks is built.
ghost use Rattle.std.specs.Prelude.{◌≡◌, ℕ, length, replicate};
ghost use Rattle.rules.specs.declared.Grid.{Grid};
ghost use Rattle.checks.specs.Answers.{job_in};
ghost use Rattle.outputs.specs.Ready.{buffers};
ghost use Rattle.polymesh.specs.Layout.{words_of, used_of};
ghost use Rattle.polymesh.specs.Gather.{Admitted, Ready, MeshedTo};
ghost use Rattle.polymesh.specs.Build.{BuildReady, MadeTo, BuiltTo};

use crate::layout::{ground, places, site, used_words};
use crate::link::link_mesh;
use checks::contour_set::ContourSet;
use contours::gather::add_contours;
use outputs::store::store_mesh;
use records::counts::Counts;
use removals::all::remove_all;
use rules::{Built, Grid, Reply};
use words::fill::fill;

// Zeros in the whole work buffer.
fn wipe(work: &mut [u32])
    ensures { work.new ≡ replicate (length work.old) 0 }
{
    let all = work.len();
    fill(work, 0, all, 0);
}

// A job with these numbers has passed the checks, and the work buffer has as many words as it uses: the contours become a
// mesh there, and the marked vertices are tried. The result is the build's reply, and with a mesh it stands there.
fn gather_mesh(work: &mut [u32], v: usize, t: usize, nvp: usize, set: &ContourSet<'_>) -> Reply
    requires { (grid : Grid) → Ready work.old v t (job_in nvp grid set.now) }
    ensures { (grid : Grid) → MeshedTo work.new v t (job_in nvp grid set.now) result }
{
    wipe(work);
    let n = add_contours(work, ground(v, t), nvp, set)?;
    let left = remove_all(work, site(v, t), n, nvp)?;
    Ok(Built {
        polygons: left.polygons as u64,
        vertices: left.vertices as u64,
    })
}

// The job's mesh is made in the work buffer, which has just the words that it uses, and goes into the six other buffers; or
// a contour or a hole has no ear to cut.
fn make_mesh(
    v: usize,
    t: usize,
    nvp: usize,
    grid: Grid,
    set: &ContourSet<'_>,
    vertices: &mut [u16],
    polygons: &mut [u16],
    neighbours: &mut [u32],
    polyregions: &mut [u16],
    polycodes: &mut [u8],
    flags: &mut [u16],
    work: &mut [u32],
) -> Reply
    requires { ((any : Grid) → Admitted v t (job_in nvp any set.now)) × BuildReady (used_of v t) v t (job_in nvp grid set.now) (buffers vertices.old polygons.old neighbours.old polyregions.old polycodes.old flags.old work.old) }
    ensures { MadeTo (job_in nvp grid set.now) (buffers vertices.old polygons.old neighbours.old polyregions.old polycodes.old flags.old work.old) (buffers vertices.new polygons.new neighbours.new polyregions.new polycodes.new flags.new work.new) result }
{
    let built = gather_mesh(work, v, t, nvp, set)?;
    let n = Counts {
        vertices: built.vertices as usize,
        polygons: built.polygons as usize,
    };
    let at = places(v, t, n);
    link_mesh(work, v, t, n, grid);
    store_mesh(
        work,
        at,
        nvp,
        vertices,
        polygons,
        neighbours,
        polyregions,
        polycodes,
        flags,
    );
    Ok(built)
}

// The same in the words that are lent for it, which are zeros at the end.
pub fn build(
    v: usize,
    t: usize,
    nvp: usize,
    grid: Grid,
    set: &ContourSet<'_>,
    vertices: &mut [u16],
    polygons: &mut [u16],
    neighbours: &mut [u32],
    polyregions: &mut [u16],
    polycodes: &mut [u8],
    flags: &mut [u16],
    work: &mut [u32],
) -> Reply
    requires { ((any : Grid) → Admitted v t (job_in nvp any set.now)) × BuildReady (words_of v) v t (job_in nvp grid set.now) (buffers vertices.old polygons.old neighbours.old polyregions.old polycodes.old flags.old work.old) }
    ensures { BuiltTo (job_in nvp grid set.now) (buffers vertices.old polygons.old neighbours.old polyregions.old polycodes.old flags.old work.old) (buffers vertices.new polygons.new neighbours.new polyregions.new polycodes.new flags.new work.new) result }
{
    let n = used_words(v, t);
    let reply = make_mesh(
        v,
        t,
        nvp,
        grid,
        set,
        vertices,
        polygons,
        neighbours,
        polyregions,
        polycodes,
        flags,
        &mut work[..n],
    );
    wipe(work);
    reply
}
