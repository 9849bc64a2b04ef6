// A file is read: the refusals in their order, and then its facets.
ghost use Rattle.std.specs.Prelude.{◌≡◌, length, true};
ghost use Rattle.rules.specs.Stl.{right_length, facets_read, facets_in};
ghost use Rattle.rules.specs.StlCall.{point_words, unstl_answer, unstl_reply, unstl_left, unstl_exit};

use crate::bytes::get_u32;
use crate::facets::{FACET_WORDS, get_facets, right_length};
use crate::header::COUNT_AT;
use crate::zeros::first_wrong;
use rules::UnstlRefusal;

// The facets of a file that has passed 72 and 73; or 71.
fn take_facets(file: &[u8], words: &mut [u32]) -> Result<u64, UnstlRefusal>
    requires { right_length file.now ≡ true }
    ensures answer { result ≡ unstl_answer (facets_read (facets_in file.now)) (length words.old) }
    ensures words { words.new ≡ unstl_left (point_words (facets_in file.now)) words.old result }
{
    let n = get_u32(file, COUNT_AT) as usize;
    if words.len() < n * FACET_WORDS {
        return Err(UnstlRefusal::ShortPoints);
    }
    get_facets(file, n, words);
    Ok(n as u64)
}

// A binary STL is read, and the patterns of its facets stand at the beginning of `words`, nine a facet; or the first refusal
// that applies is given. Any bytes may be handed in.
pub fn read_stl(file: &[u8], words: &mut [u32]) -> Result<u64, UnstlRefusal>
    ensures answer { result ≡ unstl_reply file.now (length words.old) }
    ensures words { words.new ≡ unstl_exit file.now words.old }
{
    if right_length(file) {
        return match first_wrong(file) {
            Some(i) => Err(UnstlRefusal::NotZero(i as u64)),
            None => take_facets(file, words),
        };
    }
    Err(UnstlRefusal::BadLength)
}
