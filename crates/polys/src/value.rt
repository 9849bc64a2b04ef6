// Whether two polygons can be joined, and how good it would be: the squared length of the side that they share. The words of
// the two start at `at` and at `bt`.
ghost use Rattle.std.specs.Prelude.{◌≡◌, ◌<◌};
ghost use Rattle.rules.specs.Plane.{squared};
ghost use Rattle.rules.specs.Mesh.{place_of, side_start, side_end};
ghost use Rattle.rules.specs.Merge.{turns_left, may_join, no_pair, merge_value};
ghost use Rattle.laws.specs.Lists.{All};
ghost use Rattle.laws.specs.Merge.{Below};
ghost use Rattle.records.specs.Layout.{Placed};
ghost use Rattle.records.specs.Values.{corners_from, CornerOf};
ghost use Rattle.polys.specs.Fields.{vertices_in, polygons_in, ReadyIn};
ghost use Rattle.polys.specs.Ready.{Joint, pair_of};

use crate::field::Field;
use crate::side::{is_opposite, shared_side};
use plane::measure::length_squared;
use plane::ring::next;
use plane::turn::is_left;
use records::corner::{corner_from, count_from, end_from, place_from};
use records::polygon::POLYGON_SIZE;
use records::run::Run;
use rules::Pair;

// Whether the corner where side i of the one at `at` starts turns left into the one at `bt`, past its side j.
fn turns_left(work: &[u32], f: Field, at: usize, bt: usize, i: usize, j: usize) -> bool
    requires { Joint work.now f.vertices.at f.vertices.n at bt i j }
    ensures { result ≡ turns_left (vertices_in work.now f) (corners_from work.now at) (corners_from work.now bt) i j }
{
    let na = count_from(work, at);
    let nb = count_from(work, bt);
    let a = place_from(work, f.vertices, at, (i + na - 1) % na);
    let b = place_from(work, f.vertices, at, i);
    let c = place_from(work, f.vertices, bt, (j + 2) % nb);
    is_left(a, b, c)
}

// Whether the two can be joined there: the sides run in opposite directions, and both joined corners turn left.
fn may_join(work: &[u32], f: Field, at: usize, bt: usize, i: usize, j: usize) -> bool
    requires { Joint work.now f.vertices.at f.vertices.n at bt i j }
    ensures { result ≡ may_join (vertices_in work.now f) (corners_from work.now at) (corners_from work.now bt) i j }
{
    let a = is_opposite(
        corner_from(work, at, i),
        end_from(work, at, i),
        corner_from(work, bt, j),
        end_from(work, bt, j),
    );
    let b = turns_left(work, f, at, bt, i, j);
    let c = turns_left(work, f, bt, at, j, i);
    a & (b & c)
}

// The squared length of side i of the one at `at`.
fn side_length(work: &[u32], f: Field, at: usize, i: usize) -> u32
    requires { Placed work.now f.vertices.at f.vertices.n × All (Below f.vertices.n) (corners_from work.now at) × CornerOf work.now at i }
    ensures { result ≡ squared (place_of (vertices_in work.now f) (side_start (corners_from work.now at) i)) (place_of (vertices_in work.now f) (side_end (corners_from work.now at) i)) }
{
    let a = place_from(work, f.vertices, at, i);
    let b = place_from(work, f.vertices, at, next(i, count_from(work, at)));
    length_squared(a, b)
}

// No pair.
pub fn no_pair() -> Pair
    ensures { result ≡ no_pair }
{
    Pair {
        length: 0,
        a: 0,
        b: 0,
        ea: 0,
        eb: 0,
    }
}

// Polygons a and b at side i of the one and side j of the other.
fn pair_of(
    work: &[u32],
    f: Field,
    at: usize,
    bt: usize,
    a: usize,
    b: usize,
    i: usize,
    j: usize,
) -> Pair
    requires { Joint work.now f.vertices.at f.vertices.n at bt i j }
    ensures { result ≡ pair_of (vertices_in work.now f) (corners_from work.now at) (corners_from work.now bt) a b i j }
{
    if may_join(work, f, at, bt, i, j) {
        return Pair {
            length: side_length(work, f, at, i),
            a,
            b,
            ea: i,
            eb: j,
        };
    }
    no_pair()
}

// Polygons a and b: the sides that they share, with their squared length, or 0 if they can't be merged.
pub fn get_poly_merge_value(work: &[u32], f: Field, a: usize, b: usize) -> Pair
    requires { ReadyIn work.now f × (a < f.polygons.n) × (b < f.polygons.n) }
    ensures { result ≡ merge_value (vertices_in work.now f) f.nvp (polygons_in work.now f) a b }
{
    let at = f.polygons.at + a * POLYGON_SIZE;
    let bt = f.polygons.at + b * POLYGON_SIZE;
    if f.nvp + 2 < count_from(work, at) + count_from(work, bt) {
        return no_pair();
    }
    match shared_side(work, at, bt) {
        Some((i, j)) => pair_of(work, f, at, bt, a, b, i, j),
        None => no_pair(),
    }
}
