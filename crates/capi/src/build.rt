// The build.
ghost use Rattle.std.specs.Prelude.{◌≡◌};
ghost use Rattle.rules.specs.Replies.{number_of_reply};
ghost use Rattle.rules.specs.Build.{outcome, reply_of};
ghost use Rattle.rules.specs.Exits.{exits};
ghost use Rattle.checks.specs.Answers.{job_of};
ghost use Rattle.outputs.specs.Ready.{buffers};
ghost use Rattle.capi.specs.Numbers.{answer_words};

use crate::header::{header_from, put_answer, put_header};
use checks::contour_set::ContourSet;
use polymesh::mesh::into_polygon_mesh;
use rules::Grid;

// Contours become a polygon mesh, as `into_polygon_mesh` does it. The header's nine numbers come back as they were; `answer` takes the
// reply's number, its second and its third, and the unit: 0 for millimetres, 1 for inches. The result is the reply's number.
#[unsafe(no_mangle)]
pub extern "C" fn mittencrest_build_v1(
    header: &mut [f32; 9],
    inches: bool,
    nvp: u32,
    w: u16,
    h: u16,
    border: u16,
    lengths: &[u32],
    regions: &[u16],
    codes: &[u8],
    numbers: &[u16],
    vertices: &mut [u16],
    polygons: &mut [u16],
    neighbours: &mut [u32],
    polyregions: &mut [u16],
    polycodes: &mut [u8],
    flags: &mut [u16],
    work: &mut [u32],
    answer: &mut [u64; 4],
) -> u32
    ensures result { result ≡ number_of_reply (reply_of (outcome (job_of nvp w h border lengths.now regions.now codes.now numbers.now) (buffers vertices.old polygons.old neighbours.old polyregions.old polycodes.old flags.old work.old))) }
    ensures answer { answer.new ≡ answer_words (reply_of (outcome (job_of nvp w h border lengths.now regions.now codes.now numbers.now) (buffers vertices.old polygons.old neighbours.old polyregions.old polycodes.old flags.old work.old))) inches }
    ensures header { header.new ≡ header.old }
    ensures words { buffers vertices.new polygons.new neighbours.new polyregions.new polycodes.new flags.new work.new ≡ exits (job_of nvp w h border lengths.now regions.now codes.now numbers.now) (buffers vertices.old polygons.old neighbours.old polyregions.old polycodes.old flags.old work.old) }
{
    let given = header_from(inches, header);
    let grid = Grid { w, h, border };
    let set = ContourSet {
        lengths,
        regions,
        codes,
        numbers,
    };
    let a = into_polygon_mesh(
        given,
        nvp,
        grid,
        &set,
        vertices,
        polygons,
        neighbours,
        polyregions,
        polycodes,
        flags,
        work,
    );
    let back = a.header;
    put_header(back, header);
    let reply = a.reply;
    put_answer(reply, inches, answer)
}
