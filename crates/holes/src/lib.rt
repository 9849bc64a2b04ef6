// R5: marked vertices are removed, and the holes filled.
#![tactic(auto)]

pub mod test; // whether a vertex can go
pub mod clear; // the polygons that hold a vertex go
pub mod vertices; // the vertex goes
pub mod fill; // the hole's points are cut, and its triangles become polygons
