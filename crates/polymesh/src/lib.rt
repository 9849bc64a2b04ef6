// The build: contours in, a polygon mesh out.
#![tactic(auto)]

pub mod layout; // where everything stands in the work buffer
pub mod link; // the sides of the mesh are linked
pub mod build; // a job that has passed the checks is built
pub mod mesh; // the function that users call
pub mod replies; // the numbers of a refusal
