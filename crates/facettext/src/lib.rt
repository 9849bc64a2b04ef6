// A binary STL as a text: its bytes in, a line for each facet out, in millimetres. `facets_text` is the one function for users; the
// modules are its steps.
#![tactic(auto)]

mod coordinate; // a coordinate in ten-thousandths of a millimetre
mod number; // a coordinate is printed
mod rows; // the lines of facets
mod text; // a file becomes a text

pub use text::facets_text;
