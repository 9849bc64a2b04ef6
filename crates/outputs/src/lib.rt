// The mesh that stands in the work buffer is copied into the six other lent buffers.
#![tactic(auto)]

pub mod vertices; // x, y and z of each vertex
pub mod rows; // a row of words for each polygon: its corners, and its links
pub mod tags; // a word for each polygon: its region, its area code, its flags
pub mod store; // all of it
