// R2: the ear with the least key, the lowest i on ties.
ghost use Rattle.std.specs.Prelude.{◌≡◌, ◌<◌, length};
ghost use Rattle.rules.specs.Plane.{InGrid};
ghost use Rattle.rules.specs.Ears.{key_of, is_cuttable, key_from, beats, better, least_ear, find_ear};
ghost use Rattle.plane.specs.Points.{points_in};
ghost use Rattle.ears.specs.Ring.{Ring};

use crate::diagonal::{corner, is_diagonal};
use crate::index::is_marked;
use plane::measure::length_squared;
use plane::ring::next;
use rules::{Ear, Kind, Point};

// The low 16 bits of the squared distance.
pub fn key_of(a: Point, b: Point) -> u32
    requires { InGrid a × InGrid b }
    ensures { result ≡ key_of a b }
{
    length_squared(a, b) % 65536
}

// Whether the vertex after place i may be cut.
fn is_cuttable(kind: Kind, pts: &[u32], ix: &[u32], i: usize) -> bool
    requires { Ring pts.now ix.now × (i < length ix.now) }
    ensures { result ≡ is_cuttable kind (points_in pts.now) ix.now i }
{
    let n = ix.len();
    let i1 = next(i, n);
    match kind {
        Kind::Strict => is_marked(ix[i1]),
        Kind::Loose => is_diagonal(Kind::Loose, pts, ix, i, next(i1, n)),
    }
}

// The key of the ear at place i: from i to i+2, and loosely from i to i+3.
fn key_from(kind: Kind, pts: &[u32], ix: &[u32], i: usize) -> u32
    requires { Ring pts.now ix.now × (i < length ix.now) }
    ensures { result ≡ key_from kind (points_in pts.now) ix.now i }
{
    let n = ix.len();
    let i2 = next(next(i, n), n);
    let a = corner(pts, ix, i);
    match kind {
        Kind::Strict => key_of(a, corner(pts, ix, i2)),
        Kind::Loose => key_of(a, corner(pts, ix, next(i2, n))),
    }
}

// Whether a key is less than that of the best ear so far, if there is one.
fn beats(key: u32, best: Option<Ear>) -> bool
    ensures { result ≡ beats key best }
{
    match best {
        Some(e) => key < e.key,
        None => true,
    }
}

// The ear at i with this key, where it may be cut, against the best so far.
fn better_of(ok: bool, key: u32, i: usize, best: Option<Ear>) -> Option<Ear>
    ensures { result ≡ better ok key i best }
{
    if ok & beats(key, best) {
        Some(Ear { key, at: i })
    } else {
        best
    }
}

// The least key among all places.
fn least_ear(kind: Kind, pts: &[u32], ix: &[u32]) -> Option<Ear>
    requires { Ring pts.now ix.now }
    ensures { result ≡ least_ear kind (points_in pts.now) ix.now }
{
    let n = ix.len();
    let mut best = None;
    for i in 0..n {
        if is_cuttable(kind, pts, ix, i) {
            best = better_of(true, key_from(kind, pts, ix, i), i, best);
        }
    }
    best
}

// A marked ear; if none is marked, a loose one.
pub fn find_ear(pts: &[u32], ix: &[u32]) -> Option<Ear>
    requires { Ring pts.now ix.now }
    ensures { result ≡ find_ear (points_in pts.now) ix.now }
{
    least_ear(Kind::Strict, pts, ix).or_else(|| least_ear(Kind::Loose, pts, ix))
}
