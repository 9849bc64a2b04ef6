// Replies 1 to 6: what is checked of a job and of the lent buffers before anything is built.
#![tactic(auto)]

pub mod contour_set; // the contours of a job, as its steps hand them on
pub mod counts; // the sums over the contours' lengths, and whether the lists agree in count
pub mod vertices; // the first vertex off the grid, and the first bad flag
pub mod room; // the least lengths of the lent buffers, and the first that is too short
pub mod check; // all checks, in their order
