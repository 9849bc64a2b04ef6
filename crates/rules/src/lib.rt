// The by-value types that the rules and the code share. The rules themselves are in specs/.
#![tactic(auto)]

// A place on the plane.
#[derive(Clone, Copy, Debug, PartialEq, Eq)]
pub struct Point {
    pub x: u16,
    pub z: u16,
}

// A vertex of a contour or of the mesh.
#[derive(Clone, Copy)]
pub struct Vertex {
    pub x: u16,
    pub y: u16,
    pub z: u16,
}

// The grid that a job or a mesh lies on, from 0 to w and from 0 to h, and its border.
#[derive(Clone, Copy)]
pub struct Grid {
    pub w: u16,
    pub h: u16,
    pub border: u16,
}

// How many numbers a stored vertex has: x, y and z. (`vertex_stride` of the rules' `Checks`)
pub const VERTEX_STRIDE: usize = 3;

// R1: which of the two diagonals is meant.
#[derive(Clone, Copy)]
pub enum Kind {
    Strict,
    Loose,
}

// R2: an ear with its key, `at` being the i of i, i+1, i+2.
#[derive(Clone, Copy)]
pub struct Ear {
    pub key: u32,
    pub at: usize,
}

// R4: polygons a and b, to be joined at side ea of a and eb of b, of this squared length; length 0 says that they can't be.
#[derive(Clone, Copy)]
pub struct Pair {
    pub length: u32,
    pub a: usize,
    pub b: usize,
    pub ea: usize,
    pub eb: usize,
}

// R5: a side that does not touch the vertex that goes, with its polygon's region and area code.
#[derive(Clone, Copy)]
pub struct Side {
    pub start: u32,
    pub end: u32,
    pub region: u32,
    pub code: u32,
}

// R5: a point of the chain, with the region and area code of the side that brought it.
#[derive(Clone, Copy)]
pub struct ChainPoint {
    pub vertex: u32,
    pub region: u32,
    pub code: u32,
}

// R6: the record of side `side` of polygon `poly`, which runs from vertex `low` to vertex `high`. It is joined to side
// `at` of polygon `other`; to none as long as `other` is `poly`.
#[derive(Clone, Copy)]
pub struct Edge {
    pub low: u32,
    pub high: u32,
    pub poly: u32,
    pub side: u32,
    pub other: u32,
    pub at: u32,
}

#[derive(Clone, Copy)]
pub struct Vec3 {
    pub x: f32,
    pub y: f32,
    pub z: f32,
}

// A bounding box's two corners.
#[derive(Clone, Copy)]
pub struct Aabb3d {
    pub min: Vec3,
    pub max: Vec3,
}

// "The cell size is a float tagged as millimetres or as inches".
#[derive(Clone, Copy)]
pub enum CellSize {
    Millimetres(f32),
    Inches(f32),
}

// "Each mesh carries a header: the bounding box's two corners, the cell size with its unit, the cell height in the same
// unit and the largest edge error." The cell height has no tag of its own: its unit is the cell size's.
#[derive(Clone, Copy)]
pub struct Header {
    pub aabb: Aabb3d,
    pub cell_size: CellSize,
    pub cell_height: f32,
    pub max_edge_error: f32,
}

// Replies 1 to 8, in the order of their numbers. What each carries is its second number; reply 2's is 0. 64 bits hold the
// number of any vertex of any slice, and any V.
#[derive(Clone, Copy, Debug, PartialEq, Eq)]
pub enum Refusal {
    BadCornerLimit(u64),
    CountsDisagree,
    HighCoordinate(u64),
    BadFlag(u64),
    TooManyVertices(u64),
    ShortBuffer(u64),
    NoEarInContour(u64),
    NoEarInHole(u64),
}

// Reply 0's second and its third number: how many polygons and vertices the mesh has.
#[derive(Clone, Copy, Debug, PartialEq, Eq)]
pub struct Built {
    pub polygons: u64,
    pub vertices: u64,
}

// Reply 0, or one of the others.
pub type Reply = Result<Built, Refusal>;

// What a build answers: its reply, and the header as it was given.
#[derive(Clone, Copy)]
pub struct Answer {
    pub reply: Reply,
    pub header: Header,
}

// What a mending answers that goes through: how many points were lost and how many are kept.
#[derive(Clone, Copy, Debug, PartialEq, Eq)]
pub struct Mended {
    pub lost: u64,
    pub kept: u64,
}

// Why a mending was refused: 80, 2, 82 and 81.
#[derive(Clone, Copy, Debug, PartialEq, Eq)]
pub enum MendRefusal {
    NotWhole,
    LengthsDisagree,
    ShortScratch,
    ListFull,
}

// What is wrong with a mesh that is handed in, before anything else is asked of it: 40, or 41 or 42 with the first polygon at
// fault.
#[derive(Clone, Copy, Debug, PartialEq, Eq)]
pub enum Fault {
    BadBuffers,
    BadCorners(u64),
    BadLinks(u64),
}

// What the checker objects to in a mesh that it doesn't accept: the first of refusals 40 to 44, in the order of their numbers.
#[derive(Clone, Copy, Debug, PartialEq, Eq)]
pub enum Objection {
    Unsound(Fault),
    BadPortals(u64),
    BadArea,
}

// Why no binary STL was written: what is wrong with the mesh (40 to 42); or 70, a cell size or height that is no length; or
// 71, too few bytes lent.
#[derive(Clone, Copy, Debug, PartialEq, Eq)]
pub enum StlRefusal {
    BadMesh(Fault),
    BadScale,
    ShortFile,
}

// Why a binary STL was not taken: 72, a length that doesn't fit the count; or 73, with the first byte that is not zero where
// zero is due; or 71, too few words lent.
#[derive(Clone, Copy, Debug, PartialEq, Eq)]
pub enum UnstlRefusal {
    BadLength,
    NotZero(u64),
    ShortPoints,
}
