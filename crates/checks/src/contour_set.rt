// The contours of a job, as its steps hand them on.

// For each contour its length, its region and its area code; and four numbers for each vertex: x, y, z and its flag.
#[derive(Clone, Copy)]
pub struct ContourSet<'a> {
    pub lengths: &'a [u32],
    pub regions: &'a [u16],
    pub codes: &'a [u8],
    pub numbers: &'a [u16],
}
