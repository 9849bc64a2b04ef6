// The lines of a mesh are printed.
ghost use Rattle.std.specs.Prelude.{cond};
ghost use Rattle.rules.specs.Sheet.{mm_name, in_name, refused_text, unit_line};
ghost use Rattle.lines.specs.Print.{Room, Printed};
ghost use Rattle.sheet.specs.Refusals.{number_of, line_of};
ghost use Rattle.sheet.specs.Rows.{line_of_values, top_text, mesh_line_of, polygon_text, vertex_rows, polygon_rows, VerticesReady, PolygonsReady};

use crate::refusal::SheetRefusal;
use lines::cells::{Number, put_cell, put_cells, put_signed_cell};
use lines::print::put_text;
use rules::VERTEX_STRIDE;
use stored::corners::count_corners;

// A line of a name and of numbers.
pub fn put_line<T: Number>(out: &mut [u8], at: usize, name: &[u8], ns: &[T]) -> usize
    requires { Room out.old (line_of_values T.says name.now ns.now) at }
    ensures { Printed (line_of_values T.says name.now ns.now) out.old out.new at result }
{
    let a = put_text(out, at, name);
    let e = put_cells(out, a, ns);
    out[e] = b'\n';
    e + 1
}

// A refusal: its number, and its line or second number.
pub fn put_refused(out: &mut [u8], number: u64, line: u64) -> usize
    requires { Room out.old (refused_text number line) 0 }
    ensures { Printed (refused_text number line) out.old out.new 0 result }
{
    let a = put_text(out, 0, b"refused");
    let b = put_cell(out, a, number);
    let e = put_cell(out, b, line);
    out[e] = b'\n';
    e + 1
}

// The refusal of a sheet.
pub fn put_sheet_refused(out: &mut [u8], refusal: SheetRefusal) -> usize
    requires { Room out.old (refused_text (number_of refusal) (line_of refusal)) 0 }
    ensures { Printed (refused_text (number_of refusal) (line_of refusal)) out.old out.new 0 result }
{
    put_refused(out, refusal.number(), refusal.line())
}

// What the unit is called.
fn put_unit_name(out: &mut [u8], at: usize, inches: bool) -> usize
    requires { Room out.old (cond inches in_name mm_name) at }
    ensures { Printed (cond inches in_name mm_name) out.old out.new at result }
{
    if inches {
        return put_text(out, at, b"in");
    }
    put_text(out, at, b"mm")
}

// The line of the unit.
fn put_unit(out: &mut [u8], inches: bool) -> usize
    requires { Room out.old (unit_line inches) 0 }
    ensures { Printed (unit_line inches) out.old out.new 0 result }
{
    let a = put_text(out, 0, b"unit");
    out[a] = b'\t';
    let e = put_unit_name(out, a + 1, inches);
    out[e] = b'\n';
    e + 1
}

// The unit and the cell, as they were read.
pub fn put_top(out: &mut [u8], inches: bool, size: u32, height: u32) -> usize
    requires { Room out.old (top_text inches size height) 0 }
    ensures { Printed (top_text inches size height) out.old out.new 0 result }
{
    let a = put_unit(out, inches);
    let sizes = [size, height];
    put_line(out, a, b"cell", &sizes)
}

// How many vertices and polygons there are, and their doubled area.
pub fn put_mesh_line(out: &mut [u8], at: usize, k: u64, n: u64, area: i64) -> usize
    requires { Room out.old (mesh_line_of k n area) at }
    ensures { Printed (mesh_line_of k n area) out.old out.new at result }
{
    let a = put_text(out, at, b"mesh");
    let b = put_cell(out, a, k);
    let c = put_cell(out, b, n);
    let e = put_signed_cell(out, c, area);
    out[e] = b'\n';
    e + 1
}

// The first k vertices.
pub fn put_vertices(out: &mut [u8], at: usize, k: usize, vertices: &[u16]) -> usize
    requires { VerticesReady out.old at k vertices.now }
    ensures { Printed (vertex_rows vertices.now k) out.old out.new at result }
{
    let mut to = at;
    for i in 0..k {
        let from = i * VERTEX_STRIDE;
        to = put_line(out, to, b"v", &vertices[from..from + VERTEX_STRIDE]);
    }
    to
}

// One polygon: its `p` line and its `n` line.
fn put_polygon(
    out: &mut [u8],
    at: usize,
    region: u16,
    code: u8,
    corners: &[u16],
    links: &[u32],
) -> usize
    requires { Room out.old (polygon_text region code corners.now links.now) at }
    ensures { Printed (polygon_text region code corners.now links.now) out.old out.new at result }
{
    let a = put_text(out, at, b"p");
    let b = put_cell(out, a, u64::from(region));
    let c = put_cell(out, b, u64::from(code));
    let e = put_cells(out, c, corners);
    out[e] = b'\n';
    put_line(out, e + 1, b"n", links)
}

// The first n polygons, of nvp words each, with their links; used corners only.
pub fn put_polygons(
    out: &mut [u8],
    at: usize,
    nvp: usize,
    n: usize,
    polygons: &[u16],
    neighbours: &[u32],
    regions: &[u16],
    codes: &[u8],
) -> usize
    requires { PolygonsReady out.old at nvp n polygons.now neighbours.now regions.now codes.now }
    ensures { Printed (polygon_rows nvp n polygons.now neighbours.now regions.now codes.now) out.old out.new at result }
{
    let mut to = at;
    for i in 0..n {
        let from = i * nvp;
        let used = count_corners(&polygons[from..from + nvp]);
        to = put_polygon(
            out,
            to,
            regions[i],
            codes[i],
            &polygons[from..from + used],
            &neighbours[from..from + used],
        );
    }
    to
}
