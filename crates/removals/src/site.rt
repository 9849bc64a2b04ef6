// Where a mesh stands in the work buffer: v vertices have room at `vertices`, t polygons at `polygons`, and behind them
// is scratch for the removal of a vertex.
#[derive(Clone, Copy)]
pub struct Site {
    pub vertices: usize,
    pub v: usize,
    pub polygons: usize,
    pub t: usize,
    pub scratch: usize,
}
