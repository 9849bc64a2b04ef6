// A stored mesh printed.
ghost use Rattle.rules.specs.Exits.{decoded};
ghost use Rattle.rules.specs.Sheet.{mesh_text};
ghost use Rattle.lines.specs.Print.{Printed};
ghost use Rattle.stored.specs.Stored.{lent_of};
ghost use Rattle.sheet.specs.Printable.{Printable};

use crate::rows::{put_mesh_line, put_polygons, put_vertices};
use stored::area::mesh_area;

// The mesh of n polygons of nvp words each, and of k vertices: its counts and area, its vertices, its polygons with their links.
pub fn put_mesh(
    out: &mut [u8],
    at: usize,
    nvp: usize,
    n: usize,
    k: usize,
    vertices: &[u16],
    polygons: &[u16],
    neighbours: &[u32],
    regions: &[u16],
    codes: &[u8],
) -> usize
    requires { Printable out.old at nvp n k vertices.now polygons.now neighbours.now regions.now codes.now }
    ensures { Printed (mesh_text (decoded nvp n k (lent_of vertices.now polygons.now neighbours.now regions.now codes.now))) out.old out.new at result }
{
    let area = mesh_area(nvp, n, k, vertices, polygons);
    let a = put_mesh_line(out, at, k as u64, n as u64, area);
    let b = put_vertices(out, a, k, vertices);
    put_polygons(out, b, nvp, n, polygons, neighbours, regions, codes)
}
