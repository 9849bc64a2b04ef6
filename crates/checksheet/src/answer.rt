// The verdict is printed.
ghost use Rattle.lines.specs.Print.{Room, Printed};
ghost use Rattle.checksheet.specs.Answer.{numbers_text, AnswerReady, answer_text};

use checker::check::check_mesh;
use checker::numbers::{verdict_number, verdict_second};
use lines::print::put_text;
use sheet::heading::Heading;
use sheet::rows::put_refused;

// A verdict by its two numbers.
fn put_verdict(out: &mut [u8], number: u64, second: u64) -> usize
    requires { Room out.old (numbers_text number second) 0 }
    ensures { Printed (numbers_text number second) out.old out.new 0 result }
{
    if number == 0 {
        return put_text(out, 0, b"accepted\n");
    }
    put_refused(out, number, second)
}

// The verdict on what is claimed behind the heading x: the lists, and this total.
pub fn put_answer(
    x: Heading,
    total: i64,
    vertices: &[u16],
    polygons: &[u16],
    links: &[u32],
    out: &mut [u8],
) -> usize
    requires { AnswerReady out.old }
    ensures { Printed (answer_text x total vertices.now polygons.now links.now)
        out.old out.new 0 result }
{
    let v = check_mesh(x.nvp, x.w, x.h, x.border, total, vertices, polygons, links);
    put_verdict(out, verdict_number(v), verdict_second(v))
}
