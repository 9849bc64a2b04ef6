// R5: the sides around a vertex that goes, and the walk along them.
#![tactic(auto)]

pub mod sides; // the sides that the polygons around a vertex give
pub mod trail; // a walk under way: one side tried
pub mod walk; // the walk along all sides
