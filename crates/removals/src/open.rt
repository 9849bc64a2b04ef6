// The vertex goes, and with it the polygons that hold it: a hole is left.
ghost use Rattle.records.specs.Layout.{most_corners};
ghost use Rattle.removals.specs.Removing.{RemoveReady, OpenedTo};

use crate::close::close_hole;
use crate::site::Site;
use holes::clear::clear_polygons;
use holes::vertices::remove_record;
use records::counts::Counts;
use records::point::POINT_SIZE;
use records::run::Run;
use records::side::SIDE_SIZE;
use trails::sides::collect_sides;
use trails::walk::walk_sides;

// How many polygons are left, and how many points the hole has.
#[derive(Clone, Copy)]
pub struct Hole {
    pub left: usize,
    pub points: usize,
}

// The vertex goes from the mesh at s, and the points of the hole come into the scratch.
pub fn open_hole(work: &mut [u32], s: Site, n: Counts, rem: u32) -> Hole
    requires { RemoveReady work.old s n most_corners rem }
    ensures { OpenedTo work.old work.new s n rem result }
{
    let sides = collect_sides(
        work,
        Run {
            at: s.polygons,
            n: n.polygons,
        },
        s.scratch,
        rem,
    );
    let left = clear_polygons(
        work,
        Run {
            at: s.polygons,
            n: n.polygons,
        },
        rem,
    );
    remove_record(
        work,
        Run {
            at: s.vertices,
            n: n.vertices,
        },
        rem as usize,
    );
    let e = s.scratch + sides * SIDE_SIZE + (sides + sides + 1) * POINT_SIZE;
    let walked = walk_sides(work, s.scratch, e, sides);
    let points = close_hole(work, s.scratch, walked.points);
    Hole { left, points }
}
