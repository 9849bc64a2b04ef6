// Text in lines and cells: read, and printed. What a text is, is said in the rules' `Lines`.
#![tactic(auto)]

pub mod scan; // where a byte stands, and whether two texts are the same
pub mod decimal; // a cell read as a decimal
pub mod whole; // a cell read as a whole number, which may have a sign
pub mod tabs; // the cells of a line counted, and the last one
pub mod numbers; // a line of numbers
pub mod line; // the line at a place of a text
pub mod print; // a text printed
pub mod digits; // a number printed
pub mod cells; // cells of numbers printed
