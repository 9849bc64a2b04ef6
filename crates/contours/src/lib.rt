// The contours of a job, one after the other, become a mesh in the work buffer.
#![tactic(auto)]

pub mod ground; // where the mesh is built, and a contour of the job
pub mod cut; // the places of a contour, laid out and cut
pub mod shape; // its triangles become polygons
pub mod add; // one contour is added
pub mod gather; // all of them are
