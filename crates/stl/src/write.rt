// A mesh becomes a file: the refusals in their order, and then its bytes.
ghost use Rattle.std.specs.Prelude.{◌≡◌, cond, length, Err};
ghost use Rattle.rules.specs.Stl.{size_of, height_of, is_scale};
ghost use Rattle.rules.specs.StlCall.{room_reply, stl_left, stl_reply, stl_exit};
ghost use Rattle.rules.specs.declared.StlRefusal.TheVariants.{BadScale};
ghost use Rattle.checker.specs.Asked.{handed_in};
ghost use Rattle.stl.specs.Steps.{scale_in, count_of, file_in, MeshSound, FileReady};

use crate::fans::{count_facets, put_facets};
use crate::header::{FACET_BYTES, FRONT_BYTES, put_header};
use crate::scale::{Lengths, Scale, in_millimetres, is_length};
use checker::check::soundness_of;
use checker::mesh::Mesh;
use rules::StlRefusal;

// The file of a sound mesh whose size and height, in millimetres, are lengths; or 71.
fn put_file(mesh: &Mesh<'_>, lengths: Lengths, file: &mut [u8]) -> Result<u64, StlRefusal>
    requires { FileReady lengths.size lengths.height mesh.now.nvp mesh.now.vertices.now mesh.now.polygons.now }
    ensures answer { result ≡ room_reply (count_of mesh.now.nvp mesh.now.polygons.now) (length file.old) }
    ensures bytes { file.new ≡ stl_left (file_in lengths.size lengths.height mesh.now.nvp mesh.now.vertices.now
        mesh.now.polygons.now) file.old result }
{
    let np = mesh.polygons.len() / mesh.nvp;
    let n = count_facets(mesh, np);
    if file.len() < FRONT_BYTES + n * FACET_BYTES {
        return Err(StlRefusal::ShortFile);
    }
    put_header(file, n as u32);
    put_facets(file, FRONT_BYTES, lengths, mesh, np);
    Ok(n as u64)
}

// 70 and 71, of a sound mesh.
fn write_sound(mesh: &Mesh<'_>, scale: Scale, file: &mut [u8]) -> Result<u64, StlRefusal>
    requires { MeshSound mesh.now.nvp mesh.now.vertices.now mesh.now.polygons.now }
    ensures answer { result ≡ cond (is_scale (scale_in scale.inches scale.size scale.height))
        (room_reply (count_of mesh.now.nvp mesh.now.polygons.now) (length file.old)) (Err BadScale) }
    ensures bytes { file.new ≡ (let s = scale_in scale.inches scale.size scale.height in
        stl_left (file_in (size_of s) (height_of s) mesh.now.nvp mesh.now.vertices.now mesh.now.polygons.now) file.old result) }
{
    let size = in_millimetres(scale.inches, scale.size);
    let height = in_millimetres(scale.inches, scale.height);
    if is_length(size) & is_length(height) {
        return put_file(mesh, Lengths { size, height }, file);
    }
    Err(StlRefusal::BadScale)
}

// A mesh and its scale become a binary STL at the beginning of `file`, or the first refusal that applies is given. Any numbers
// may be handed in.
pub fn write_stl(
    nvp: u32,
    inches: bool,
    size: f32,
    height: f32,
    vertices: &[u16],
    polygons: &[u16],
    links: &[u32],
    file: &mut [u8],
) -> Result<u64, StlRefusal>
    ensures answer { result ≡ stl_reply (handed_in nvp vertices.now polygons.now links.now) (scale_in inches size height)
        (length file.old) }
    ensures bytes { file.new ≡ stl_exit (handed_in nvp vertices.now polygons.now links.now)
        (scale_in inches size height) file.old }
{
    soundness_of(nvp, vertices, polygons, links).map_err(StlRefusal::BadMesh)?;
    let mesh = Mesh {
        nvp: nvp as usize,
        vertices,
        polygons,
        links,
    };
    let scale = Scale {
        inches,
        size,
        height,
    };
    write_sound(&mesh, scale, file)
}
