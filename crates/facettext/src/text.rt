// A file becomes a text.
ghost use Rattle.std.specs.Prelude.{◌≤◌, ◌≡◌, true, length, take};
ghost use Rattle.rules.specs.Stl.{facets_read, facets_in, right_length};
ghost use Rattle.rules.specs.Sheet.{refused_text};
ghost use Rattle.rules.specs.StlCall.{unstl_refusal_number, unstl_refusal_second};
ghost use Rattle.rules.specs.StlText.{reading_text, facets_text};
ghost use Rattle.lines.specs.Print.{Room, Printed};

use crate::rows::put_facet_lines;
use lines::cells::put_cell;
use lines::print::put_text;
use rules::UnstlRefusal;
use sheet::refusal::SheetRefusal;
use sheet::rows::{put_refused, put_sheet_refused};
use stl::bytes::get_u32;
use stl::facets::right_length;
use stl::header::COUNT_AT;
use stl::numbers::{unstl_number, unstl_second};
use stl::zeros::first_wrong;

// The text of a file that is good: its unit, how many facets it has, and their lines.
fn put_good(file: &[u8], out: &mut [u8]) -> usize
    requires file_value { right_length file.now ≡ true }
    requires room { Room out.old (reading_text (facets_read (facets_in file.now))) 0 }
    ensures { Printed (reading_text (facets_read (facets_in file.now))) out.old out.new 0 result }
{
    let n = get_u32(file, COUNT_AT) as usize;
    let a = put_text(out, 0, b"unit\tmm\n");
    let b = put_text(out, a, b"facets");
    let c = put_cell(out, b, n as u64);
    out[c] = b'\n';
    put_facet_lines(out, c + 1, file, n)
}

// The refusal of a file.
fn put_file_refused(out: &mut [u8], refusal: UnstlRefusal) -> usize
    requires { Room out.old (refused_text (unstl_refusal_number refusal) (unstl_refusal_second refusal)) 0 }
    ensures { Printed (refused_text (unstl_refusal_number refusal) (unstl_refusal_second refusal))
        out.old out.new 0 result }
{
    let reply = Err(refusal);
    put_refused(out, unstl_number(reply), unstl_second(reply))
}

// What is printed for an STL: its bytes in, and the text at the beginning of `out`. Any bytes may be handed in. The answer is the text's
// length.
pub fn facets_text(file: &[u8], out: &mut [u8; 272000]) -> usize
    ensures printed { Printed (facets_text file.now) out.old out.new 0 result }
    ensures counted { (result ≤ length out.new) × (result ≡ length (take result out.new)) }
{
    if file.len() > 65536 {
        return put_sheet_refused(out, SheetRefusal::TooLong);
    }
    if !right_length(file) {
        return put_file_refused(out, UnstlRefusal::BadLength);
    }
    match first_wrong(file) {
        Some(i) => put_file_refused(out, UnstlRefusal::NotZero(i as u64)),
        None => put_good(file, out),
    }
}
