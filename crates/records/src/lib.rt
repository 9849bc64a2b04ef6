// The records of the work buffer: how many words each has, and how one is read and written.
#![tactic(auto)]

pub mod run; // where records of one kind stand, and how many there are
pub mod vertex; // a vertex with its mark
pub mod polygon; // a polygon, and a list of them
pub mod corner; // a polygon's corners, read in place
pub mod side; // a side of a removal
pub mod point; // a point of the chain
pub mod counts; // how many vertices and polygons there are
pub mod edge; // the record of a side for the links
