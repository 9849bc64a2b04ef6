// A mesh as it lies in lent buffers, from a build or from elsewhere: its vertices are read, its polygons' corners
// counted, and their areas summed.
#![tactic(auto)]

pub mod vertices; // a vertex by its number
pub mod corners; // how many corners a polygon has
pub mod area; // the doubled area of the polygons
