// The header of the mesh.
ghost use Rattle.std.specs.Prelude.{◌≡◌};
ghost use Rattle.rules.specs.Units.{header_of};

use plane::unit::{cell_size, thousandths};
use rules::{Aabb3d, Header, Vec3};

// The header of a sheet whose cell has this size and height, in thousandths of its unit; box and edge error are zero.
pub fn header_of(inches: bool, size: u32, height: u32) -> Header
    ensures { result ≡ header_of inches size height }
{
    let zero = Vec3 {
        x: 0.0,
        y: 0.0,
        z: 0.0,
    };
    let aabb = Aabb3d {
        min: zero,
        max: zero,
    };
    let cell = cell_size(inches, thousandths(size));
    Header {
        aabb: aabb,
        cell_size: cell,
        cell_height: thousandths(height),
        max_edge_error: 0.0,
    }
}
