// A printed mesh, on slices: the bytes of a mesh in, the checker's verdict on it as a text out. `check_sheet` is the one
// function for users; the modules are its steps.
#![tactic(auto)]

mod counts; // the mesh line
mod progress; // how far the reading is
mod places; // the vertices are read
mod padding; // numbers stored, and 65,535 behind them
mod rows; // a polygon's two lines are read
mod polygons; // the polygons are read
mod lists; // all that is behind the mesh line
mod claim; // all that is behind the heading
mod answer; // the verdict is printed
mod text; // a printed mesh becomes a text

pub use text::check_sheet;
