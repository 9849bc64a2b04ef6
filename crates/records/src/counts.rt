// How many vertices and polygons a mesh in the work buffer has.
#[derive(Clone, Copy, Debug, PartialEq, Eq)]
pub struct Counts {
    pub vertices: usize,
    pub polygons: usize,
}
