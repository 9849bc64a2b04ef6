// A job is built, and becomes a file.
ghost use Rattle.std.specs.Prelude.{◌≤◌};
ghost use Rattle.lines.specs.Print.{Printed};
ghost use Rattle.sheet.specs.Room.{out_most};
ghost use Rattle.stlsheet.specs.Carving.{ReplyReady, reply_file, CarveJobReady, job_file};

use crate::file::put_carved;
use checks::contour_set::ContourSet;
use polymesh::mesh::into_polygon_mesh;
use polymesh::replies::{refusal_number, refusal_second};
use rules::{Grid, Reply};
use sheet::header::header_of;
use sheet::heading::Heading;
use sheet::rows::put_refused;

// What is written for a reply of the build; with reply 0 the mesh stands in the buffers.
fn put_reply(
    x: Heading,
    reply: Reply,
    vertices: &[u16],
    polygons: &[u16],
    neighbours: &[u32],
    out: &mut [u8],
) -> usize
    requires { ReplyReady x reply vertices.now polygons.now neighbours.now out.old }
    ensures { Printed (reply_file x reply vertices.now polygons.now neighbours.now)
        out.old out.new 0 result }
{
    match reply {
        Err(r) => put_refused(out, refusal_number(r), refusal_second(r)),
        Ok(built) => put_carved(
            x,
            built.polygons as usize,
            built.vertices as usize,
            vertices,
            polygons,
            neighbours,
            out,
        ),
    }
}

// What is written for a heading and the contours behind it. The buffers have room for 96 vertices and 96 polygons of 12 corners.
pub fn carve_job(
    x: Heading,
    lengths: &[u32],
    regions: &[u16],
    codes: &[u8],
    numbers: &[u16],
    out: &mut [u8],
) -> usize
    requires { CarveJobReady lengths.now out.old }
    ensures printed { Printed (job_file x lengths.now regions.now codes.now numbers.now)
        out.old out.new 0 result }
    ensures short { result ≤ out_most }
{
    let mut vertices = [0u16; 288];
    let mut polygons = [0u16; 1152];
    let mut neighbours = [0u32; 1152];
    let mut polyregions = [0u16; 96];
    let mut polycodes = [0u8; 96];
    let mut flags = [0u16; 96];
    let mut work = [0u32; 16384];
    let grid = Grid {
        w: x.w,
        h: x.h,
        border: x.border,
    };
    let set = ContourSet {
        lengths,
        regions,
        codes,
        numbers,
    };
    let header = header_of(x.inches, x.size, x.height);
    let answer = into_polygon_mesh(
        header,
        x.nvp,
        grid,
        &set,
        &mut vertices,
        &mut polygons,
        &mut neighbours,
        &mut polyregions,
        &mut polycodes,
        &mut flags,
        &mut work,
    );
    put_reply(x, answer.reply, &vertices, &polygons, &neighbours, out)
}
