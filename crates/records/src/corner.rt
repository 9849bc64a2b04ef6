// The corners of a polygon, read where it stands in the work buffer: its words start at `at`.
ghost use Rattle.std.specs.Prelude.{◌≡◌, ◌<◌, length, get_or};
ghost use Rattle.rules.specs.Plane.{InGrid};
ghost use Rattle.rules.specs.Mesh.{side_end, place_of};
ghost use Rattle.laws.specs.Lists.{All};
ghost use Rattle.laws.specs.Merge.{Below};
ghost use Rattle.records.specs.Layout.{vertices_at, Placed};
ghost use Rattle.records.specs.Values.{corners_from, Stands, CornerOf};

use crate::polygon::CORNERS_AT;
use crate::run::Run;
use crate::vertex::place_at;
use plane::ring::next;
use rules::Point;

// How many corners it has.
pub fn count_from(work: &[u32], at: usize) -> usize
    requires { Stands work.now at }
    ensures { result ≡ length (corners_from work.now at) }
{
    work[at] as usize
}

// Corner i: where side i starts.
pub fn corner_from(work: &[u32], at: usize, i: usize) -> u32
    requires { CornerOf work.now at i }
    ensures { result ≡ get_or (corners_from work.now at) i 0 }
{
    work[at + CORNERS_AT + i]
}

// Where side i ends.
pub fn end_from(work: &[u32], at: usize, i: usize) -> u32
    requires { CornerOf work.now at i }
    ensures { result ≡ side_end (corners_from work.now at) i }
{
    corner_from(work, at, next(i, count_from(work, at)))
}

// Where corner i stands.
pub fn place_from(work: &[u32], vertices: Run, at: usize, i: usize) -> Point
    requires { Placed work.now vertices.at vertices.n × All (Below vertices.n) (corners_from work.now at) × CornerOf work.now at i }
    ensures { (result ≡ place_of (vertices_at work.now vertices.at vertices.n) (get_or (corners_from work.now at) i 0)) × InGrid result }
{
    place_at(work, vertices, corner_from(work, at, i) as usize)
}

// All its corners.
pub fn corners_from(work: &[u32], at: usize) -> &[u32]
    requires { Stands work.now at }
    ensures { result.now ≡ corners_from work.now at }
{
    let first = at + CORNERS_AT;
    &work[first..first + work[at] as usize]
}
