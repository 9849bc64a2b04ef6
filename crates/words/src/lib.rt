// Words of a lent slice, whatever they stand for: filled with one value, moved down, and read as places.
#![tactic(auto)]

pub mod fill; // words that become one value
pub mod moves; // words that move down
pub mod places; // a word that is a place
