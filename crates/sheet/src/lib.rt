// The job sheet, on slices: the bytes of a sheet in, the text that is printed for it out. `mesh_sheet` is the one function
// for users; the modules are its steps, and those that are public serve the mended sheet, the printed mesh and the STL too.
#![tactic(auto)]

pub mod refusal; // why a sheet is refused
pub mod header; // the header of the mesh
pub mod heading; // the heading lines are read
pub mod lists; // what is read of the contours
mod body; // the contours and their vertices are read
pub mod read; // a sheet is read, from its first byte to its last contour
pub mod rows; // the lines of a mesh are printed
mod mesh; // a stored mesh is printed
mod answer; // a job is built, and its text printed
mod text; // a sheet becomes a text

pub use text::mesh_sheet;
