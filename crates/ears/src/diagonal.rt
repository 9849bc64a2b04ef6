// R1: strict and loose diagonals of the ring whose index words are ix, over the points pts.
ghost use Rattle.std.specs.Prelude.{◌≡◌, not, ◌&&◌, ◌<◌, ltb, eqb, length};
ghost use Rattle.rules.specs.Lists as Lists;
ghost use Rattle.rules.specs.Plane.{InGrid};
ghost use Rattle.rules.specs.Diagonal.{left_by, in_cone, at_ends, shares_end, hits, is_blocked, is_diagonal};
ghost use Rattle.rules.specs.Ears.{point_at};
ghost use Rattle.plane.specs.Points.{points_in};
ghost use Rattle.plane.specs.Boxes.{bounds_of};
ghost use Rattle.ears.specs.Ring.{Ring, Ends, side_stops};

use crate::index::index_of;
use plane::bounds::{Bounds, are_apart, bounds_of};
use plane::measure::point_at;
use plane::ring::{next, prev};
use plane::segment::{intersect, intersect_prop};
use plane::turn::{is_left, is_left_on};
use rules::{Kind, Point};

// Left of the line from a to b; for the loose diagonal also on it.
fn left_by(kind: Kind, a: Point, b: Point, c: Point) -> bool
    requires { InGrid a × InGrid b × InGrid c }
    ensures { result ≡ left_by kind a b c }
{
    match kind {
        Kind::Strict => is_left(a, b, c),
        Kind::Loose => is_left_on(a, b, c),
    }
}

// Whether j lies in the cone at i, p being before i and q after it.
pub fn in_cone(kind: Kind, p: Point, i: Point, q: Point, j: Point) -> bool
    requires { InGrid p × InGrid i × InGrid q × InGrid j }
    ensures { result ≡ in_cone kind p i q j }
{
    if is_left_on(p, i, q) {
        left_by(kind, i, j, p) & left_by(kind, j, i, q)
    } else {
        !(is_left_on(i, j, q) & is_left_on(j, i, p))
    }
}

// Whether the side from place k to place l is at place i or j.
fn at_ends(i: usize, j: usize, k: usize, l: usize) -> bool
    ensures { result ≡ at_ends i j k l }
{
    (k == i) | (l == i) | (k == j) | (l == j)
}

// Whether the side c d has an end where the diagonal a b has one.
#[tactic(auto, unfolding(rules::specs::Diagonal::shares_end, rules::specs::Plane::vequal))]
fn shares_end(a: Point, b: Point, c: Point, d: Point) -> bool
    ensures { result ≡ shares_end a b c d }
{
    a == c || b == c || a == d || b == d
}

// Whether the side c d crosses or touches the diagonal a b; the loose one lets touching pass.
fn is_hit(kind: Kind, a: Point, b: Point, c: Point, d: Point) -> bool
    requires { InGrid a × InGrid b × InGrid c × InGrid d }
    ensures { result ≡ hits kind a b c d }
{
    match kind {
        Kind::Strict => intersect(a, b, c, d),
        Kind::Loose => intersect_prop(a, b, c, d),
    }
}

// The point whose index stands in the word at place k.
pub fn corner(pts: &[u32], ix: &[u32], k: usize) -> Point
    requires { Ring pts.now ix.now × (k < length ix.now) }
    ensures { (result ≡ point_at (points_in pts.now) ix.now k) × InGrid result }
{
    let v = index_of(ix[k]) as usize;
    point_at(pts, v)
}

// Whether the side from place k, where c stands, to place l, where d stands, stops the diagonal from place i, where a
// stands, to place j, where b stands. One that is apart from the diagonal's box t doesn't: nothing else is asked of it.
fn does_stop(
    kind: Kind,
    i: usize,
    j: usize,
    a: Point,
    b: Point,
    t: Bounds,
    k: usize,
    l: usize,
    c: Point,
    d: Point,
) -> bool
    requires { InGrid a × InGrid b × InGrid c × InGrid d × (t ≡ bounds_of a b) }
    ensures { result ≡ side_stops kind i j a b k l c d }
{
    if are_apart(t, c, d) {
        return false;
    }
    if at_ends(i, j, k, l) {
        return false;
    }
    if shares_end(a, b, c, d) {
        return false;
    }
    is_hit(kind, a, b, c, d)
}

// Whether j is i+2 in a ring of at most four places. Then every side is at place i or j.
fn leaves_no_side(i: usize, j: usize, n: usize) -> bool
    ensures { result ≡ (ltb n 5 && eqb j (Lists.next (Lists.next i n) n)) }
{
    if n < 5 {
        j == next(next(i, n), n)
    } else {
        false
    }
}

// Whether no side stops that diagonal: Rust's `is_diagonal_internal_or_external`, and its loose twin. The diagonal's box
// is made once, and each turn reads one point: c stands at place k.
fn is_clear(kind: Kind, pts: &[u32], ix: &[u32], i: usize, j: usize, a: Point, b: Point) -> bool
    requires { Ring pts.now ix.now × Ends pts.now ix.now i j a b }
    ensures { result ≡ not (is_blocked kind (point_at (points_in pts.now) ix.now) (length ix.now) i j) }
{
    let n = ix.len();
    if leaves_no_side(i, j, n) {
        return true;
    }
    let t = bounds_of(a, b);
    let mut c = corner(pts, ix, 0);
    let mut k = 0;
    let clear = loop {
        if n <= k {
            break true;
        }
        let l = next(k, n);
        let d = corner(pts, ix, l);
        if does_stop(kind, i, j, a, b, t, k, l, c, d) {
            break false;
        }
        c = d;
        k += 1;
    };
    clear
}

// Whether place i to place j is a diagonal: Rust's `is_diagonal` and `is_diagonal_loose`.
pub fn is_diagonal(kind: Kind, pts: &[u32], ix: &[u32], i: usize, j: usize) -> bool
    requires { Ring pts.now ix.now × (i < length ix.now) × (j < length ix.now) }
    ensures { result ≡ is_diagonal kind (point_at (points_in pts.now) ix.now) (length ix.now) i j }
{
    let n = ix.len();
    let p = corner(pts, ix, prev(i, n));
    let a = corner(pts, ix, i);
    let q = corner(pts, ix, next(i, n));
    let b = corner(pts, ix, j);
    if in_cone(kind, p, a, q, b) {
        is_clear(kind, pts, ix, i, j, a, b)
    } else {
        false
    }
}
