// Binary STL, written and read.
ghost use Rattle.std.specs.Prelude.{◌≡◌, length};
ghost use Rattle.rules.specs.StlCall.{stl_reply, stl_exit, stl_number, stl_words, unstl_reply, unstl_exit, unstl_number, unstl_words};
ghost use Rattle.checker.specs.Asked.{handed_in};
ghost use Rattle.stl.specs.Steps.{scale_in};

use crate::three::put_three;
use stl::numbers::{stl_number, stl_second, unstl_number, unstl_second};
use stl::{read_stl, write_stl};

// A mesh becomes a binary STL, as `write_stl` does it. `answer` takes the reply's number, its second number and 0. The result is the reply's
// number.
#[unsafe(no_mangle)]
pub extern "C" fn mittencrest_stl_v1(
    nvp: u32,
    inches: bool,
    size: f32,
    height: f32,
    vertices: &[u16],
    polygons: &[u16],
    links: &[u32],
    file: &mut [u8],
    answer: &mut [u64; 3],
) -> u32
    ensures result { result ≡ stl_number (stl_reply (handed_in nvp vertices.now polygons.now links.now)
        (scale_in inches size height) (length file.old)) }
    ensures answer { answer.new ≡ stl_words (stl_reply (handed_in nvp vertices.now polygons.now links.now)
        (scale_in inches size height) (length file.old)) }
    ensures file { file.new ≡ stl_exit (handed_in nvp vertices.now polygons.now links.now)
        (scale_in inches size height) file.old }
{
    let reply = write_stl(nvp, inches, size, height, vertices, polygons, links, file);
    put_three(answer, stl_number(reply) as u32, stl_second(reply), 0)
}

// A binary STL is read, as `read_stl` does it: `points` take the patterns of its facets, nine each. `answer` and the result likewise.
#[unsafe(no_mangle)]
pub extern "C" fn mittencrest_unstl_v1(
    file: &[u8],
    points: &mut [u32],
    answer: &mut [u64; 3],
) -> u32
    ensures result { result ≡ unstl_number (unstl_reply file.now (length points.old)) }
    ensures answer { answer.new ≡ unstl_words (unstl_reply file.now (length points.old)) }
    ensures points { points.new ≡ unstl_exit file.now points.old }
{
    let reply = read_stl(file, points);
    put_three(answer, unstl_number(reply) as u32, unstl_second(reply), 0)
}
