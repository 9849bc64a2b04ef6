// R5: a vertex goes, and all marked vertices are tried.
#![tactic(auto)]

pub mod site; // where a mesh stands in the work buffer
pub mod close; // the hole is closed or open
pub mod open; // the vertex and its polygons go, and a hole is left
pub mod remove; // the hole is filled
pub mod all; // all marked vertices
