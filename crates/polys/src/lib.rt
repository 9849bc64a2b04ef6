// R4: the polygons of one contour, or of one hole, are merged.
#![tactic(auto)]

pub mod field; // where the vertices, the polygons and their rows stand
pub mod side; // the side that two polygons share
pub mod value; // whether two polygons can be joined, and how good it would be
pub mod best; // the best pair, from all pairs
mod stamp; // what tells polygons apart that share no side
mod row; // the best pair of one polygon, kept
mod rows; // the best pair, from the rows that are kept from join to join
mod search; // how the best pair is found: from all pairs, or from the rows
pub mod merge; // the join of a pair, and the merge of all
