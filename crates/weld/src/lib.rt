// R3: the vertices of a contour are welded to those of the mesh.
#![tactic(auto)]

pub mod hash; // the bucket of a vertex
pub mod find; // the vertex that is the same, looked for in its bucket
pub mod add; // one vertex takes its number
pub mod contour; // all vertices of a contour take theirs
