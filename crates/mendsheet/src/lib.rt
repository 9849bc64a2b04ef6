// A job sheet whose contours are mended, on slices: the bytes of a sheet in, the text that is printed for it out. `mend_sheet`
// and `lost_sheet` are the functions for users; the modules are their steps.
#![tactic(auto)]

mod print; // a sheet is printed
mod lost; // the lines of lost points are printed
mod answer; // a sheet that was read is mended, and its text printed
mod text; // a sheet becomes a text

pub use text::{lost_sheet, mend_sheet};
