// The whole mesh goes out.
ghost use Rattle.outputs.specs.Ready.{buffers, StoreReady, StoredTo};

use crate::rows::{copy_corners, copy_links};
use crate::tags::{clear_flags, copy_tags};
use crate::vertices::copy_vertices;
use records::run::Run;

// Where the mesh stands in the work buffer: its vertices, its polygons, and the word where their links begin.
#[derive(Clone, Copy)]
pub struct Places {
    pub vertices: Run,
    pub polygons: Run,
    pub links: usize,
}

// The mesh goes into the six lent buffers, and what lies past it is unchanged.
pub fn store_mesh(
    work: &[u32],
    at: Places,
    nvp: usize,
    vertices: &mut [u16],
    polygons: &mut [u16],
    neighbours: &mut [u32],
    regions: &mut [u16],
    codes: &mut [u8],
    flags: &mut [u16],
)
    requires { StoreReady at nvp (buffers vertices.old polygons.old neighbours.old regions.old codes.old flags.old work.now) }
    ensures { StoredTo at nvp (buffers vertices.old polygons.old neighbours.old regions.old codes.old flags.old work.now) (buffers vertices.new polygons.new neighbours.new regions.new codes.new flags.new work.now) }
{
    copy_vertices(work, at, vertices);
    copy_corners(work, at, nvp, polygons);
    copy_links(work, at, nvp, neighbours);
    copy_tags(work, at, regions, codes);
    clear_flags(flags, at.polygons.n);
}
