// The mesh line: how many vertices and polygons there are, and their doubled area as it is claimed.
ghost use Rattle.rules.specs.Lines.{tab_byte, parts};
ghost use Rattle.checksheet.specs.Reading.{MeshIs};

use lines::numbers::read_numbers;
use lines::tabs::{count_cells, last_cell};
use lines::whole::read_signed;

// The most vertices, and the most polygons.
const COUNT_MOST: u64 = 8192;

// The most that the claimed total may be, above zero or below.
const TOTAL_MOST: u64 = 9223372036854775807;

// What a mesh line says: how many vertices and polygons there are, and the claimed total.
#[derive(Clone, Copy, Debug, PartialEq, Eq)]
pub struct MeshLine {
    pub places: usize,
    pub polygons: usize,
    pub total: i64,
}

// The mesh line of these bytes: four cells, the last of which has a sign.
pub fn mesh_cells(line: &[u8]) -> Option<MeshLine>
    ensures { MeshIs (parts tab_byte line.now) result }
{
    let last = last_cell(line);
    if count_cells(line) == 4 {
        let counts = read_numbers::<2>(&line[..last - 1], b"mesh", 0, &[COUNT_MOST; 2])?;
        let total = read_signed(&line[last..], TOTAL_MOST)?;
        return Some(MeshLine {
            places: counts[0] as usize,
            polygons: counts[1] as usize,
            total,
        });
    }
    None
}
