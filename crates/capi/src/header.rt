// The header and the answer as numbers.
ghost use Rattle.std.specs.Prelude.{◌≡◌, length};
ghost use Rattle.rules.specs.Replies.{number_of_reply};
ghost use Rattle.capi.specs.Numbers.{header_length, answer_length, header_from, size_number, header_words, answer_words};

use plane::unit::cell_size;
use polymesh::replies::{refusal_number, refusal_second};
use rules::{Aabb3d, CellSize, Header, Reply, Vec3};

// The header that these numbers are, in this unit.
pub fn header_from(inches: bool, numbers: &[f32]) -> Header
    requires { length numbers.now ≡ header_length }
    ensures { result ≡ header_from inches numbers.now }
{
    let min = Vec3 {
        x: numbers[0],
        y: numbers[1],
        z: numbers[2],
    };
    let max = Vec3 {
        x: numbers[3],
        y: numbers[4],
        z: numbers[5],
    };
    Header {
        aabb: Aabb3d { min, max },
        cell_size: cell_size(inches, numbers[6]),
        cell_height: numbers[7],
        max_edge_error: numbers[8],
    }
}

// The number of a cell size, without its unit.
fn size_of(size: CellSize) -> f32
    ensures { result ≡ size_number size }
{
    match size {
        CellSize::Millimetres(x) => x,
        CellSize::Inches(x) => x,
    }
}

// The numbers of a header.
pub fn put_header(header: Header, numbers: &mut [f32])
    requires { length numbers.old ≡ header_length }
    ensures { numbers.new ≡ header_words header }
{
    let size = header.cell_size;
    let aabb = header.aabb;
    numbers[0] = aabb.min.x;
    numbers[1] = aabb.min.y;
    numbers[2] = aabb.min.z;
    numbers[3] = aabb.max.x;
    numbers[4] = aabb.max.y;
    numbers[5] = aabb.max.z;
    numbers[6] = size_of(size);
    numbers[7] = header.cell_height;
    numbers[8] = header.max_edge_error;
}

// The numbers of a reply, and the unit: 0 for millimetres, 1 for inches. The result is the reply's number.
pub fn put_answer(reply: Reply, inches: bool, words: &mut [u64]) -> u32
    requires { length words.old ≡ answer_length }
    ensures { (result ≡ number_of_reply reply) × (words.new ≡ answer_words reply inches) }
{
    let unit = u64::from(inches);
    match reply {
        Ok(built) => {
            words[0] = 0;
            words[1] = built.polygons;
            words[2] = built.vertices;
            words[3] = unit;
            0
        }
        Err(r) => {
            let number = refusal_number(r);
            words[0] = number;
            words[1] = refusal_second(r);
            words[2] = 0;
            words[3] = unit;
            number as u32
        }
    }
}
