// Layer 1: places in a ring, predicates on points, boxes of segments, lengths and areas, the distance, and the unit. Each
// function's result is the rules' definition of its arguments, or for boxes the crate's.
#![tactic(auto)]

pub mod ring; // the place after one and the place before it
pub mod turn; // D, and which side of a line a point is on
pub mod segment; // two segments cross or touch
pub mod bounds; // the box of a segment, and those apart from it
pub mod measure; // squared lengths, and the doubled area of a list of points
pub mod distance; // from a point to a segment, in f32
pub mod unit; // the cell size in millimetres
