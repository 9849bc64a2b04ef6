// Layer 2: diagonals and ear cutting, in a part of the work buffer that holds the points, the index words and the
// triangles of one contour or one hole.
#![tactic(auto)]

pub mod index; // index words: the mark and the index
pub mod diagonal; // R1
pub mod search; // R2: the ear with the least key
pub mod cut; // R2: one cut, and all of them
