// Records of one kind in the work buffer.

// So many of them, one after the other, from the word `at` on.
#[derive(Clone, Copy, Debug, PartialEq, Eq)]
pub struct Run {
    pub at: usize,
    pub n: usize,
}
