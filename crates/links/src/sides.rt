// The sides of the polygons: those from a lower to a higher vertex are recorded, and each opposite one is joined to the
// newest free record.
ghost use Rattle.std.specs.Prelude.{◌≡◌, refl, List, ℕ, ◌+◌, ◌≤◌, length};
ghost use Rattle.mem.specs.Loops.{each};
ghost use Rattle.records.specs.Layout.{most_corners, edges_at, polygons_at};
ghost use Rattle.records.specs.Values.{corners_of, On};
ghost use Rattle.links.specs.Tables.{Room, Edged, Rewritten};
ghost use Rattle.rules.specs.declared.Edge.{Edge};
ghost use Rattle.links.specs.Ready.{record_of, join_of, each_of, corners_in, InHand, Sides, SidesRecorded, SidesJoined};

use crate::edges::{EdgeTables, find_free, join_edge, put_edge};
use records::polygon::{Poly, corner, load_at, side_end};
use records::run::Run;
use rules::Edge;

// What is done with a side of a polygon.
trait Step {
    // the records after side j of polygon i, whose corners are given
    ghost made: { List ℕ → ℕ → ℕ → List Edge → List Edge };

    // how many more records there can be after so many sides
    ghost added: { ℕ → ℕ };

    // It is done with side j of polygon i, whose value is p. The result says how many records there are then.
    fn take(
        work: &mut [u32],
        t: EdgeTables,
        nv: usize,
        ne: usize,
        i: usize,
        p: Poly,
        j: usize,
    ) -> usize
        requires { InHand work.old t nv ne i p × Room work.old t nv (ne + added 1) × On p j }
        ensures { Rewritten work.old work.new t nv ne (made (corners_of p) i j (edges_at work.old t.edges ne)) (added 1) result };

    ghost adds: { (m n : ℕ) → added (m + n) ≡ added m + added n };
}

// A side from a lower to a higher vertex is recorded.
struct Recording;

impl Step for Recording {
    ghost made = { record_of };

    ghost added = { λ n. n };

    fn take(
        work: &mut [u32],
        t: EdgeTables,
        nv: usize,
        ne: usize,
        i: usize,
        p: Poly,
        j: usize,
    ) -> usize {
        let a = corner(p, j);
        let b = side_end(p, j);
        if a < b {
            let e = Edge {
                low: a,
                high: b,
                poly: i as u32,
                side: j as u32,
                other: i as u32,
                at: 0,
            };
            put_edge(work, t, nv, ne, e);
            return ne + 1;
        }
        ne
    }

    ghost adds = { λ m n. refl };
}

// A side from a higher to a lower vertex is joined to the newest free record.
struct Joining;

impl Step for Joining {
    ghost made = { join_of };

    ghost added = { λ n. 0 };

    fn take(
        work: &mut [u32],
        t: EdgeTables,
        nv: usize,
        ne: usize,
        i: usize,
        p: Poly,
        j: usize,
    ) -> usize {
        let a = corner(p, j);
        let b = side_end(p, j);
        if b < a {
            if let Some(k) = find_free(work, t, nv, ne, b, a) {
                join_edge(work, t, nv, ne, k, i as u32, j as u32);
            }
        }
        ne
    }

    ghost adds = { λ m n. refl };
}

// The step for each side of polygon i.
fn take_polygon<S: Step>(
    work: &mut [u32],
    t: EdgeTables,
    nv: usize,
    ne: usize,
    i: usize,
    p: Poly,
) -> usize
    requires { InHand work.old t nv ne i p × Room work.old t nv (ne + S.added p.n) × (p.n ≤ most_corners) }
    ensures { Rewritten work.old work.new t nv ne (each (S.made (corners_of p) i) 0 (length (corners_of p)) (edges_at work.old t.edges ne)) (S.added p.n) result }
{
    let mut n = ne;
    for j in 0..p.n {
        n = S::take(work, t, nv, n, i, p, j);
    }
    n
}

// The same for each of the polygons.
fn take_sides<S: Step>(
    work: &mut [u32],
    polygons: Run,
    nv: usize,
    t: EdgeTables,
    ne: usize,
) -> usize
    requires { Sides work.old polygons.at polygons.n nv t × Edged work.old t nv ne × Room work.old t nv (ne + S.added (corners_in (polygons_at work.old polygons.at polygons.n))) }
    ensures { Rewritten work.old work.new t nv ne (each (each_of S.made (polygons_at work.old polygons.at polygons.n)) 0 polygons.n (edges_at work.old t.edges ne))
        (S.added (corners_in (polygons_at work.old polygons.at polygons.n))) result }
{
    let mut n = ne;
    for i in 0..polygons.n {
        let p = load_at(work, polygons, i);
        n = take_polygon::<S>(work, t, nv, n, i, p);
    }
    n
}

// All sides of the polygons that run from a lower to a higher vertex are recorded. The result says how many records
// there are then.
pub fn record_sides(work: &mut [u32], polygons: Run, nv: usize, t: EdgeTables, ne: usize) -> usize
    requires { Sides work.old polygons.at polygons.n nv t × Edged work.old t nv ne × Room work.old t nv (ne + corners_in (polygons_at work.old polygons.at polygons.n)) }
    ensures { SidesRecorded work.old work.new polygons.at polygons.n nv t ne result }
{
    take_sides::<Recording>(work, polygons, nv, t, ne)
}

// All that run from a higher to a lower vertex are joined.
pub fn join_sides(work: &mut [u32], polygons: Run, nv: usize, t: EdgeTables, ne: usize)
    requires { Sides work.old polygons.at polygons.n nv t × Edged work.old t nv ne }
    ensures { SidesJoined work.old work.new polygons.at polygons.n nv t ne }
{
    take_sides::<Joining>(work, polygons, nv, t, ne);
}
