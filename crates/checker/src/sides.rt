// 42, side by side: a link names another polygon, with a side that runs the other way and names it back.
ghost use Rattle.std.specs.Prelude.{◌≡◌, ◌<◌, [], length, get_or};
ghost use Rattle.rules.specs.Handed.{polygon_count, mesh_in, corners_at, any_of, names_back, link_holds};
ghost use Rattle.checker.specs.Asked.{linked};
ghost use Rattle.checker.specs.Steps.{RowsReady, PolygonAt};

use crate::ends::corners_end;
use crate::mesh::Mesh;
use plane::ring::next;
use records::polygon::NONE;

// The most that the link of an open side may be: R7's last portal.
const LAST_PORTAL: u32 = 65539;

// Whether side q of a polygon with these corners and links runs from b to a, and its link is i.
fn names_back(corners: &[u16], links: &[u32], a: u16, b: u16, i: u32, q: usize) -> bool
    requires { (q < length corners.now) × (length links.now ≡ length corners.now) }
    ensures { result ≡ names_back corners.now links.now a b i q }
{
    if corners[q] == b {
        let e = next(q, corners.len());
        if corners[e] == a {
            return links[q] == i;
        }
    }
    false
}

// Whether some side does.
fn is_named_back(corners: &[u16], links: &[u32], a: u16, b: u16, i: u32) -> bool
    requires { length links.now ≡ length corners.now }
    ensures { result ≡ any_of (names_back corners.now links.now a b i) 0 (length corners.now) }
{
    (0..corners.len()).any(|q| names_back(corners, links, a, b, i, q))
}

// Whether some side of polygon l does.
fn polygon_names_back(mesh: &Mesh<'_>, l: usize, a: u16, b: u16, i: u32) -> bool
    requires { RowsReady (linked mesh.now) × (l < polygon_count (linked mesh.now)) }
    ensures { result ≡ (let s = mesh_in (linked mesh.now) in
        any_of (names_back (corners_at s l) (get_or s.links l []) a b i) 0 (length (corners_at s l))) }
{
    let from = l * mesh.nvp;
    let to = corners_end(mesh.nvp, mesh.polygons, l);
    is_named_back(&mesh.polygons[from..to], &mesh.links[from..to], a, b, i)
}

// Whether the link of side j of polygon i, of np polygons, holds; `own` are its corners, and `mine` its links.
pub fn link_holds(mesh: &Mesh<'_>, np: usize, i: usize, own: &[u16], mine: &[u32], j: usize) -> bool
    requires { PolygonAt (linked mesh.now) np i own.now mine.now × (j < length own.now) }
    ensures { result ≡ link_holds (mesh_in (linked mesh.now)) i j }
{
    let l = mine[j];
    if NONE <= l {
        return l <= LAST_PORTAL;
    }
    let other = l as usize;
    if np <= other {
        return false;
    }
    if other == i {
        return false;
    }
    let e = next(j, own.len());
    polygon_names_back(mesh, other, own[j], own[e], i as u32)
}
