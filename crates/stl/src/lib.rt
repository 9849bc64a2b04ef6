// Binary STL for the older carver: a mesh in, the file's bytes out, and back. `write_stl` and `read_stl` take any numbers; the
// modules are their steps.
#![tactic(auto)]

pub mod bytes; // numbers as four bytes, and zeros
mod scale; // size and height in millimetres
mod points; // the bytes of a point and of a facet
mod fans; // the facets of polygons
pub mod header; // the 84 bytes in front, and how many a facet has
mod write; // a mesh becomes a file
pub mod zeros; // where zero is due
pub mod facets; // the facets in a file
mod read; // a file is read
pub mod numbers; // the replies' numbers

pub use read::read_stl;
pub use write::write_stl;
