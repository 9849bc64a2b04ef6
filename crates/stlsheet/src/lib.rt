// A job sheet as a binary STL, on slices: the bytes of a sheet in, the file or the refusal's line out. `stl_sheet` is the one
// function for users; the modules are its steps.
#![tactic(auto)]

mod file; // a stored mesh becomes a file
mod answer; // a job is built, and becomes a file
mod text; // a sheet becomes a file

pub use text::stl_sheet;
