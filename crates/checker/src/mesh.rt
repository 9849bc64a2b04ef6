// What the checker is asked, as its steps hand it on.

// A mesh from elsewhere: how many words a polygon has, and its vertices, polygons and links.
#[derive(Clone, Copy)]
pub struct Mesh<'a> {
    pub nvp: usize,
    pub vertices: &'a [u16],
    pub polygons: &'a [u16],
    pub links: &'a [u32],
}
