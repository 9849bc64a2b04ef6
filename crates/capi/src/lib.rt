// The way in for C, C++, Rust and Python: numbers and slices. Each entry has a version in its name; include/mittencrest.h declares
// them for C.
#![tactic(auto)]

mod header; // the header and the answer as numbers
mod measures; // the distance, and units
mod build; // the build
mod three; // an answer of three numbers
mod mender; // the mender
mod checking; // the checker
mod carving; // binary STL

pub use build::mittencrest_build_v1;
pub use carving::{mittencrest_stl_v1, mittencrest_unstl_v1};
pub use checking::mittencrest_check_v1;
pub use measures::{
    mittencrest_distance_v1, mittencrest_millimetres_v1, mittencrest_thousandths_v1,
};
pub use mender::{mittencrest_mend_job_v1, mittencrest_mend_v1};
