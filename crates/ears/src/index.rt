// Index words: the top bit marks a cuttable vertex, the low 28 bits are the index.
ghost use Rattle.std.specs.Prelude.{◌≡◌};
ghost use Rattle.rules.specs.Ears.{index_of, is_marked, with_mark};

// Rust's CAN_REMOVE and INDEX_MASK.
const CAN_REMOVE: u32 = 0x80000000;

const INDEX_MASK: u32 = 0x0fffffff;

// The index that stands in a word.
pub fn index_of(w: u32) -> u32
    ensures { result ≡ index_of w }
{
    w & INDEX_MASK
}

// Whether a word is marked.
pub fn is_marked(w: u32) -> bool
    ensures { result ≡ is_marked w }
{
    w & CAN_REMOVE != 0
}

// The word with its mark set or cleared.
pub fn with_mark(on: bool, w: u32) -> u32
    ensures { result ≡ with_mark on w }
{
    if on {
        w & INDEX_MASK | CAN_REMOVE
    } else {
        w & INDEX_MASK
    }
}
