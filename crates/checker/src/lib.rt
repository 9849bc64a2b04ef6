// Request 7, the checker of meshes from elsewhere, on slices. `check::soundness_of` gives refusals 40 to 42, which come first
// in every request that takes a mesh; `check::check_mesh` is the checker; the other modules are their steps.
#![tactic(auto)]

pub mod mesh; // what is asked
mod buffers; // 40: counts and limits
mod ends; // the words of one polygon
mod corners; // 41: corners in range
mod sides; // 42: the link of one side
mod linked; // 42: the links of each polygon
mod portals; // 43: what open sides bear
pub mod check; // refusals in their order
pub mod numbers; // their numbers
