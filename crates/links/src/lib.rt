// R6 and R7: the sides of the mesh's polygons are linked, and open ones on the grid's edge become portals.
#![tactic(auto)]

pub mod edges; // the records of sides, chained by their lower vertex
pub mod sides; // all sides are recorded, and joined to those that run the other way
pub mod adjacency; // the links of the polygons' sides
pub mod portals; // open sides on the grid's edge
