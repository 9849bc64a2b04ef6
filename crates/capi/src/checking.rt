// The checker.
ghost use Rattle.std.specs.Prelude.{◌≡◌};
ghost use Rattle.rules.specs.Checker.{verdict, verdict_number, verdict_words};
ghost use Rattle.checker.specs.Asked.{claim_in};

use crate::three::put_three;
use checker::check::check_mesh;
use checker::numbers::{verdict_number, verdict_second};

// A mesh from elsewhere is checked, as `check_mesh` does it. `answer` takes the verdict's number, its second number and 0. The result is the
// verdict's number.
#[unsafe(no_mangle)]
pub extern "C" fn mittencrest_check_v1(
    nvp: u32,
    w: u16,
    h: u16,
    border: u16,
    claim: i64,
    vertices: &[u16],
    polygons: &[u16],
    links: &[u32],
    answer: &mut [u64; 3],
) -> u32
    ensures result { result ≡ verdict_number (verdict (claim_in nvp w h border claim vertices.now polygons.now links.now)) }
    ensures answer { answer.new
        ≡ verdict_words (verdict (claim_in nvp w h border claim vertices.now polygons.now links.now)) }
{
    let verdict = check_mesh(nvp, w, h, border, claim, vertices, polygons, links);
    put_three(
        answer,
        verdict_number(verdict) as u32,
        verdict_second(verdict),
        0,
    )
}
