// Where the mesh is built: the weld's tables have room for v vertices, t polygons have room at `polygons`, and behind them
// is scratch for a contour: v words for the numbers that its vertices take, and behind them 6 v words to cut it in.
#[derive(Clone, Copy)]
pub struct Ground {
    pub buckets: usize,
    pub vertices: usize,
    pub nexts: usize,
    pub v: usize,
    pub polygons: usize,
    pub t: usize,
    pub scratch: usize,
}

// A contour of a job: the n vertices from `first` on, its region and its area code.
#[derive(Clone, Copy)]
pub struct Contour {
    pub first: usize,
    pub n: usize,
    pub region: u16,
    pub code: u8,
}
