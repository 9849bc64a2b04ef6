// The facets in a file: their count, and their patterns.
ghost use Rattle.std.specs.Prelude.{◌≡◌, ◌+◌, ◌*◌, ◌≤◌, length};
ghost use Rattle.mem.specs.Slice.{view, splice};
ghost use Rattle.rules.specs.Stl.{right_length, count_in, facet_in, facets_in};
ghost use Rattle.rules.specs.StlCall.{point_words};

use crate::bytes::get_u32;
use crate::header::{COUNT_AT, FACET_BYTES, FRONT_BYTES};

// How many patterns a facet has.
pub const FACET_WORDS: usize = 9;

// Whether a file's length fits its count.
pub fn right_length(file: &[u8]) -> bool
    ensures { result ≡ right_length file.now }
{
    if file.len() < FRONT_BYTES {
        return false;
    }
    let n = get_u32(file, COUNT_AT) as usize;
    file.len() == FRONT_BYTES + n * FACET_BYTES
}

// The nine patterns of the facet at `at`, into the words from `to` on.
pub fn get_facet(file: &[u8], at: usize, words: &mut [u32], to: usize)
    requires at_in_bounds { at + 50 ≤ length file.now }
    requires to_in_bounds { to + 9 ≤ length words.old }
    ensures { words.new ≡ splice words.old to (facet_in (view file.now at 50)) }
{
    for i in 0..FACET_WORDS {
        words[to + i] = get_u32(file, at + 12 + i * 4);
    }
}

// The patterns of all n facets, into the first words.
pub fn get_facets(file: &[u8], n: usize, words: &mut [u32])
    requires n_value { n ≡ count_in file.now }
    requires n_in_bounds { 84 + n * 50 ≤ length file.now }
    requires n_in_bounds_2 { n * 9 ≤ length words.old }
    ensures { words.new ≡ splice words.old 0 (point_words (facets_in file.now)) }
{
    for k in 0..n {
        get_facet(file, FRONT_BYTES + k * FACET_BYTES, words, k * FACET_WORDS);
    }
}
