// The hole's points and triangles: their places are laid out to be cut, and the triangles become polygons.
ghost use Rattle.std.specs.Prelude.{◌≡◌, ◌&&◌, cond, [], ◌∷◌, map, ◌+◌, ◌*◌, ◌≤◌, ◌<◌, eqb, length};
ghost use Rattle.mem.specs.Slice.{splice};
ghost use Rattle.mem.specs.Packed.{packed};
ghost use Rattle.rules.specs.Removal.{places_of, hole_triangle};
ghost use Rattle.records.specs.Layout.{point_size, vertices_at, points_at, polygon_records};
ghost use Rattle.records.specs.Values.{Loaded};
ghost use Rattle.holes.specs.Fill.{place_words, LayReady, CutReady, cut_words, triangles_at, ShapeReady, MeshReady, MeshedOver};
ghost use Rattle.holes.specs.Fill.{FillReady, filled_of, filled_in};
ghost use Rattle.rules.specs.Ears as Rules;
ghost use Rattle.ears.specs.Part.{answer_of};

use ears::cut::{NoEar, triangulate};
use polys::merge::merge_polys;
use records::point::load_point;
use records::polygon::{NONE, POLYGON_SIZE, Poly, store_poly};
use records::run::Run;
use records::vertex::place_at;
use words::fill::fill;

// The places of the m points at q go to po, two words each.
pub fn lay_points(work: &mut [u32], vertices: Run, q: usize, m: usize, po: usize)
    requires { LayReady work.old vertices.at vertices.n q m po }
    ensures { work.new ≡ splice work.old po (packed place_words (places_of (vertices_at work.old vertices.at vertices.n) (points_at work.old q m))) }
{
    for k in 0..m {
        let c = load_point(work, q, m, k);
        let p = place_at(work, vertices, c.vertex as usize);
        work[po + k * 2] = p.x as u32;
        work[po + k * 2 + 1] = p.z as u32;
    }
}

// The m points at q are laid out at po and cut.
pub fn cut_hole(
    work: &mut [u32],
    vertices: Run,
    q: usize,
    m: usize,
    po: usize,
) -> Result<usize, NoEar>
    requires { CutReady work.old vertices.at vertices.n q m po }
    ensures answer { result ≡ answer_of (Rules.triangulate (places_of (vertices_at work.old vertices.at vertices.n) (points_at work.old q m))) }
    ensures words { work.new ≡ splice work.old po (cut_words m (places_of (vertices_at work.old vertices.at vertices.n) (points_at work.old q m)) (Rules.triangulate (places_of (vertices_at work.old vertices.at vertices.n) (points_at work.old q m)))) }
{
    lay_points(work, vertices, q, m, po);
    let e = po + (m * 6 - 6);
    triangulate(&mut work[po..e], m)
}

// The region of a triangle of a hole, from those of its three points.
fn agreed_region(a: u32, b: u32, c: u32) -> u32
    ensures { result ≡ cond (eqb a b && eqb b c) a 0 }
{
    if (a == b) & (b == c) { a } else { 0 }
}

// The triangle of places i, j and k of the m points at q.
fn hole_triangle(work: &[u32], q: usize, m: usize, i: usize, j: usize, k: usize) -> Poly
    requires { (q + m * point_size ≤ length work.now) × (i < m) × (j < m) × (k < m) }
    ensures { Loaded (hole_triangle (points_at work.now q m) (i ∷ j ∷ k ∷ [])) result }
{
    let a = load_point(work, q, m, i);
    let b = load_point(work, q, m, j);
    let c = load_point(work, q, m, k);
    Poly {
        corners: [
            a.vertex, b.vertex, c.vertex, NONE, NONE, NONE, NONE, NONE, NONE, NONE, NONE, NONE,
        ],
        n: 3,
        region: agreed_region(a.region, b.region, c.region),
        code: a.code,
    }
}

// The k triangles whose words stand at `to` become polygons at `at`.
pub fn shape_triangles(work: &mut [u32], at: usize, q: usize, m: usize, to: usize, k: usize)
    requires { ShapeReady work.old at q m to k }
    ensures { work.new ≡ splice work.old at (polygon_records (map (hole_triangle (points_at work.old q m)) (triangles_at work.old to k))) }
{
    for i in 0..k {
        let t = to + i * 3;
        let p = hole_triangle(
            work,
            q,
            m,
            work[t] as usize,
            work[t + 1] as usize,
            work[t + 2] as usize,
        );
        store_poly(work, at + i * POLYGON_SIZE, p);
    }
}

// The k triangles whose words stand at `to` become polygons at `at`, and are merged, with the merge's rows at ro, where zeros are
// left. The result says how many are left.
pub fn mesh_hole(
    work: &mut [u32],
    vertices: Run,
    at: usize,
    q: usize,
    m: usize,
    to: usize,
    k: usize,
    nvp: usize,
    ro: usize,
) -> usize
    requires { MeshReady work.old vertices.at vertices.n at q m to k nvp ro }
    ensures { MeshedOver work.old work.new vertices.at vertices.n at q m to k nvp ro result }
{
    shape_triangles(work, at, q, m, to, k);
    merge_polys(work, vertices, Run { at, n: k }, nvp, ro)
}

// The hole of the m points at q is cut, behind them at po, and its polygons go to `at`, in front of them. The result says how
// many they are, or that there is no ear to cut.
pub fn fill_hole(
    work: &mut [u32],
    vertices: Run,
    at: usize,
    q: usize,
    m: usize,
    po: usize,
    nvp: usize,
) -> Option<usize>
    requires { FillReady work.old vertices.at vertices.n at q m po nvp }
    ensures answer { result ≡ filled_of (vertices_at work.old vertices.at vertices.n) nvp (points_at work.old q m) (Rules.triangulate (places_of (vertices_at work.old vertices.at vertices.n) (points_at work.old q m))) }
    ensures words { work.new ≡ filled_in work.old (vertices_at work.old vertices.at vertices.n) nvp at po (points_at work.old q m) (Rules.triangulate (places_of (vertices_at work.old vertices.at vertices.n) (points_at work.old q m))) }
{
    match cut_hole(work, vertices, q, m, po) {
        Ok(k) => {
            let n = mesh_hole(work, vertices, at, q, m, po + m * 3, k, nvp, po);
            fill(work, po, m * 6 - 6, 0);
            Some(n)
        }
        Err(_) => {
            fill(work, po, m * 6 - 6, 0);
            None
        }
    }
}
