// The function that users call.
ghost use Rattle.std.specs.Prelude.{◌≡◌};
ghost use Rattle.rules.specs.Build as Rules;
ghost use Rattle.rules.specs.Exits.{exits};
ghost use Rattle.rules.specs.Checker.{OwnAccepted};
ghost use Rattle.checks.specs.Answers.{job_in};
ghost use Rattle.outputs.specs.Ready.{buffers};
ghost use Rattle.polymesh.specs.Words.{WordsFit};

use crate::build::build;
use checks::check::check;
use checks::contour_set::ContourSet;
use checks::counts::{count_t, count_v};
use checks::room::work_words;
use rules::{Answer, Grid, Header};

// What the lists' types say of their numbers, whatever they are. It does nothing.
fn words_fit(lengths: &[u32], regions: &[u16], codes: &[u8], numbers: &[u16])
    ensures { WordsFit lengths.now regions.now codes.now numbers.now }
{}

// Contours become a polygon mesh, or the first refusal that applies is given. Any numbers may be handed in. A job has the
// most corners of a polygon, the grid's width, height and border, and for each contour a length, a region and an area code;
// and four numbers a vertex: x, y, z, flag. The header comes back as it was given.
pub fn into_polygon_mesh(
    header: Header,
    nvp: u32,
    grid: Grid,
    set: &ContourSet<'_>,
    vertices: &mut [u16],
    polygons: &mut [u16],
    neighbours: &mut [u32],
    polyregions: &mut [u16],
    polycodes: &mut [u8],
    flags: &mut [u16],
    work: &mut [u32],
) -> Answer
    ensures answer { result ≡ Rules.answer header (job_in nvp grid set.now) (buffers vertices.old polygons.old neighbours.old polyregions.old polycodes.old flags.old work.old) }
    ensures words { buffers vertices.new polygons.new neighbours.new polyregions.new polycodes.new flags.new work.new ≡ exits (job_in nvp grid set.now) (buffers vertices.old polygons.old neighbours.old polyregions.old polycodes.old flags.old work.old) }
    ensures accepted { OwnAccepted (job_in nvp grid set.now)
        result.reply
        (buffers vertices.new polygons.new neighbours.new polyregions.new polycodes.new flags.new
        work.new) }
{
    let have = [
        vertices.len(),
        polygons.len(),
        neighbours.len(),
        polyregions.len(),
        polycodes.len(),
        flags.len(),
        work.len(),
    ];
    if let Err(refusal) = check(nvp, set, have) {
        return Answer {
            reply: Err(refusal),
            header,
        };
    }
    words_fit(set.lengths, set.regions, set.codes, set.numbers);
    let v = count_v(set.lengths);
    let t = count_t(set.lengths);
    let n = work_words(v);
    let reply = build(
        v,
        t,
        nvp as usize,
        grid,
        set,
        vertices,
        polygons,
        neighbours,
        polyregions,
        polycodes,
        flags,
        &mut work[..n],
    );
    Answer { reply, header }
}
