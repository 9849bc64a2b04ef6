// The refusals in their order: 40 to 42, which say whether a mesh is sound, and then 43 and 44.
ghost use Rattle.std.specs.Prelude.{◌≡◌, cond, ◌-ℤ◌, Ok, Err};
ghost use Rattle.rules.specs.Plane.{is_zero};
ghost use Rattle.rules.specs.Areas.{stored_area};
ghost use Rattle.rules.specs.Handed.{polygon_count, first_fault, corners_hold, links_hold, or_fault, soundness, GoodBuffers, Consistent};
ghost use Rattle.rules.specs.Checker.{portals_hold, sound_verdict, verdict};
ghost use Rattle.rules.specs.declared.Fault.TheVariants.{BadCorners, BadLinks};
ghost use Rattle.rules.specs.declared.Objection.TheVariants.{BadArea};
ghost use Rattle.stored.specs.Stored.{stored_in, MeshReady};
ghost use Rattle.checker.specs.Asked.{handed_in, claim_in, handed, linked, claimed};
ghost use Rattle.checker.specs.Steps.{RowsReady};

use crate::buffers::buffers_hold;
use crate::corners::first_bad_corners;
use crate::linked::first_bad_links;
use crate::mesh::Mesh;
use crate::portals::first_bad_portals;
use rules::{Fault, Grid, Objection, VERTEX_STRIDE};
use stored::area::mesh_area;

// 42, of np polygons.
fn links_sound(mesh: &Mesh<'_>, np: usize) -> Result<(), Fault>
    requires { RowsReady (linked mesh.now) × (np ≡ polygon_count (linked mesh.now)) }
    ensures { result ≡ or_fault BadLinks (first_fault (links_hold (linked mesh.now)) np) (Ok tt) }
{
    match first_bad_links(mesh, np) {
        Some(i) => Err(Fault::BadLinks(i as u64)),
        None => Ok(()),
    }
}

// 41 and 42, of a mesh that has passed 40. 42 is looked for without the vertices.
fn rows_sound(mesh: &Mesh<'_>) -> Result<(), Fault>
    requires { GoodBuffers (handed mesh.now) }
    ensures { result ≡ (let m = handed mesh.now in
        or_fault BadCorners (first_fault (corners_hold m) (polygon_count m)) (or_fault BadLinks (first_fault (links_hold m) (polygon_count m)) (Ok tt))) }
{
    let np = mesh.polygons.len() / mesh.nvp;
    match first_bad_corners(
        mesh.nvp,
        mesh.vertices.len() / VERTEX_STRIDE,
        np,
        mesh.polygons,
    ) {
        Some(i) => Err(Fault::BadCorners(i as u64)),
        None => links_sound(
            &Mesh {
                vertices: &[],
                ..*mesh
            },
            np,
        ),
    }
}

// 40 to 42, which come first in every request that takes a mesh.
pub fn soundness_of(
    nvp: u32,
    vertices: &[u16],
    polygons: &[u16],
    links: &[u32],
) -> Result<(), Fault>
    ensures { result ≡ soundness (handed_in nvp vertices.now polygons.now links.now) }
{
    let mesh = Mesh {
        nvp: nvp as usize,
        vertices,
        polygons,
        links,
    };
    if buffers_hold(&mesh) {
        return rows_sound(&mesh);
    }
    Err(Fault::BadBuffers)
}

// 44, of np polygons over nv vertices.
fn area_verdict(
    nvp: usize,
    np: usize,
    nv: usize,
    claim: i64,
    vertices: &[u16],
    polygons: &[u16],
) -> Result<(), Objection>
    requires { MeshReady nvp np nv vertices.now polygons.now }
    ensures { result ≡ cond (is_zero (stored_area (stored_in nvp np nv vertices.now polygons.now) -ℤ claim)) (Ok tt) (Err BadArea) }
{
    if mesh_area(nvp, np, nv, vertices, polygons) == claim {
        return Ok(());
    }
    Err(Objection::BadArea)
}

// 43 and 44, of a sound mesh.
fn sound_verdict(mesh: &Mesh<'_>, grid: Grid, claim: i64) -> Result<(), Objection>
    requires { Consistent (handed mesh.now) }
    ensures { result ≡ (let c = claimed mesh.now grid claim in
        sound_verdict c (first_fault (portals_hold c) (polygon_count c.mesh))) }
{
    let np = mesh.polygons.len() / mesh.nvp;
    match first_bad_portals(mesh, np, grid) {
        Some(i) => Err(Objection::BadPortals(i as u64)),
        None => area_verdict(
            mesh.nvp,
            np,
            mesh.vertices.len() / VERTEX_STRIDE,
            claim,
            mesh.vertices,
            mesh.polygons,
        ),
    }
}

// The checker: the verdict on a mesh, its grid and what is claimed of its area.
pub fn check_mesh(
    nvp: u32,
    w: u16,
    h: u16,
    border: u16,
    claim: i64,
    vertices: &[u16],
    polygons: &[u16],
    links: &[u32],
) -> Result<(), Objection>
    ensures { result ≡ verdict (claim_in nvp w h border claim vertices.now polygons.now links.now) }
{
    soundness_of(nvp, vertices, polygons, links).map_err(Objection::Unsound)?;
    let mesh = Mesh {
        nvp: nvp as usize,
        vertices,
        polygons,
        links,
    };
    sound_verdict(&mesh, Grid { w, h, border }, claim)
}
