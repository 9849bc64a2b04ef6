// The doubled area of the stored polygons.
ghost use Rattle.std.specs.Prelude.{◌≡◌};
ghost use Rattle.mem.specs.Slice.{splice};
ghost use Rattle.mem.specs.Packed.{packed};
ghost use Rattle.rules.specs.Plane.{area};
ghost use Rattle.rules.specs.Areas.{stored_area};
ghost use Rattle.stored.specs.Stored.{stored_in, places_of, place_words, PlacesReady, PolygonReady, MeshReady};

use crate::corners::count_corners;
use plane::measure::doubled_area;
use rules::VERTEX_STRIDE;

// The places of these corners go to the beginning of pts, as words x, z, x, z, ..
fn put_places(vertices: &[u16], corners: &[u16], pts: &mut [u32])
    requires { PlacesReady vertices.now corners.now pts.old }
    ensures { pts.new ≡ splice pts.old 0 (packed place_words (places_of vertices.now corners.now)) }
{
    for c in 0..corners.len() {
        let v = usize::from(corners[c]) * VERTEX_STRIDE;
        pts[c * 2] = u32::from(vertices[v]);
        pts[c * 2 + 1] = u32::from(vertices[v + 2]);
    }
}

// The doubled area of a polygon of at most 12 corners.
fn polygon_area(vertices: &[u16], corners: &[u16]) -> i64
    requires { PolygonReady vertices.now corners.now }
    ensures { result ≡ area (places_of vertices.now corners.now) }
{
    let mut pts = [0u32; 24];
    put_places(vertices, corners, &mut pts);
    doubled_area(&pts[..corners.len() * 2])
}

// The doubled area of n stored polygons of nvp words each, over k stored vertices.
pub fn mesh_area(nvp: usize, n: usize, k: usize, vertices: &[u16], polygons: &[u16]) -> i64
    requires { MeshReady nvp n k vertices.now polygons.now }
    ensures { result ≡ stored_area (stored_in nvp n k vertices.now polygons.now) }
{
    let mut sum = 0i64;
    for i in 0..n {
        let from = i * nvp;
        let c = count_corners(&polygons[from..from + nvp]);
        sum += polygon_area(vertices, &polygons[from..from + c]);
    }
    sum
}
