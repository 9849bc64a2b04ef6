// The places in the work buffer that a merge works on.

use records::run::Run;

// The vertices and the polygons, each of at most nvp corners, and the word where the polygons' rows begin.
#[derive(Clone, Copy)]
pub struct Field {
    pub vertices: Run,
    pub polygons: Run,
    pub nvp: usize,
    pub rows: usize,
}
