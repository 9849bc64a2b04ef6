// How far the reading is.

// The line and the place that come next.
#[derive(Clone, Copy, Debug, PartialEq, Eq)]
pub struct Progress {
    pub line: u64,
    pub at: usize,
}
