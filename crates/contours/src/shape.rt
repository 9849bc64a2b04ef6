// The triangles of a contour become polygons, and are merged.
ghost use Rattle.std.specs.Prelude.{◌≡◌, [], ◌∷◌, map, ◌+◌, ◌≤◌, ◌<◌, length};
ghost use Rattle.mem.specs.Slice.{view, splice};
ghost use Rattle.rules.specs.Build.{contour_triangle};
ghost use Rattle.records.specs.Layout.{polygon_records};
ghost use Rattle.records.specs.Values.{Loaded};
ghost use Rattle.holes.specs.Fill.{triangles_at};
ghost use Rattle.contours.specs.Shaping.{ShapeReady, MeshReady, MeshedOver};

use crate::ground::Contour;
use polys::merge::merge_polys;
use records::polygon::{NONE, POLYGON_SIZE, Poly, store_poly};
use records::run::Run;
use words::fill::fill;

// The triangle of the vertices i, j and k of a contour, whose n numbers stand at ko.
fn contour_triangle(
    work: &[u32],
    ko: usize,
    n: usize,
    i: usize,
    j: usize,
    k: usize,
    region: u16,
    code: u8,
) -> Poly
    requires { (ko + n ≤ length work.now) × (i < n) × (j < n) × (k < n) }
    ensures { Loaded (contour_triangle (view work.now ko n) region code (i ∷ j ∷ k ∷ [])) result }
{
    Poly {
        corners: [
            work[ko + i],
            work[ko + j],
            work[ko + k],
            NONE,
            NONE,
            NONE,
            NONE,
            NONE,
            NONE,
            NONE,
            NONE,
            NONE,
        ],
        n: 3,
        region: region as u32,
        code: code as u32,
    }
}

// The k triangles whose words stand at `to` become polygons at `at`, of a contour whose n numbers stand at ko.
pub fn shape_contour(
    work: &mut [u32],
    at: usize,
    ko: usize,
    n: usize,
    to: usize,
    k: usize,
    region: u16,
    code: u8,
)
    requires { ShapeReady work.old at ko n to k }
    ensures { work.new ≡ splice work.old at (polygon_records (map (contour_triangle (view work.old ko n) region code) (triangles_at work.old to k))) }
{
    for i in 0..k {
        let t = to + i * 3;
        let p = contour_triangle(
            work,
            ko,
            n,
            work[t] as usize,
            work[t + 1] as usize,
            work[t + 2] as usize,
            region,
            code,
        );
        store_poly(work, at + i * POLYGON_SIZE, p);
    }
}

// The triangles of contour c become polygons, and are merged, with the merge's rows at ro. Zeros are left behind the polygons
// that are left, and where the rows were. The result says how many are left.
pub fn mesh_contour(
    work: &mut [u32],
    vertices: Run,
    at: usize,
    ko: usize,
    to: usize,
    k: usize,
    nvp: usize,
    ro: usize,
    c: Contour,
) -> usize
    requires { MeshReady work.old vertices.at vertices.n at ko c.n to k nvp ro }
    ensures { MeshedOver work.old work.new vertices.at vertices.n at ko c.n to k nvp ro c.region c.code result }
{
    shape_contour(work, at, ko, c.n, to, k, c.region, c.code);
    let r = merge_polys(work, vertices, Run { at, n: k }, nvp, ro);
    fill(work, at + r * POLYGON_SIZE, (k - r) * POLYGON_SIZE, 0);
    r
}
