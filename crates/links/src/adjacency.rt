// The links of the polygons' sides: both polygons of a record that is joined to another polygon store each other's number.
ghost use Rattle.std.specs.Prelude.{◌≡◌, ◌<◌, length, get_or, set};
ghost use Rattle.mem.specs.Slice.{splice};
ghost use Rattle.rules.specs.Links.{no_edge, edges_of, links_of};
ghost use Rattle.records.specs.Layout.{polygons_at, edges_at};
ghost use Rattle.links.specs.Tables.{edged, Room, Rewritten};
ghost use Rattle.links.specs.Ready.{corners_in, Sides, LinkReady, link_place, link_records, store_words, StoreReady};

use crate::edges::EdgeTables;
use crate::sides::{join_sides, record_sides};
use records::edge::load_edge;
use records::polygon::{LINK_SIZE, NONE};
use records::run::Run;
use words::fill::fill;

// The sides of the polygons are recorded and joined, whatever the tables held. The result says how many records
// there are.
fn link_sides(work: &mut [u32], polygons: Run, nv: usize, t: EdgeTables) -> usize
    requires { Sides work.old polygons.at polygons.n nv t × Room work.old t nv (corners_in (polygons_at work.old polygons.at polygons.n)) }
    ensures { Rewritten work.old work.new t nv 0 (edges_of (polygons_at work.old polygons.at polygons.n)) (corners_in (polygons_at work.old polygons.at polygons.n)) result }
{
    fill(work, t.firsts, nv, 0);
    let ne = record_sides(work, polygons, nv, t, 0);
    join_sides(work, polygons, nv, t, ne);
    ne
}

// Link j of polygon i becomes n.
fn set_link(work: &mut [u32], lo: usize, i: u32, j: u32, n: u32)
    requires { link_place lo i j < length work.old }
    ensures { work.new ≡ set work.old (link_place lo i j) n }
{
    work[lo + i as usize * LINK_SIZE + j as usize] = n;
}

// If record k of ne is joined to another polygon, both polygons store each other's number.
fn store_links(work: &mut [u32], t: EdgeTables, ne: usize, k: usize, lo: usize)
    requires { StoreReady work.old t ne k lo }
    ensures { work.new ≡ store_words lo (get_or (edges_at work.old t.edges ne) k no_edge) work.old }
{
    let e = load_edge(work, t.edges, ne, k);
    if e.other == e.poly {
        return;
    }
    set_link(work, lo, e.poly, e.side, e.other);
    set_link(work, lo, e.other, e.at, e.poly);
}

// R6 for the polygons: their links stand at lo, and the records of their sides in the tables.
pub fn build_mesh_adjacency(work: &mut [u32], polygons: Run, nv: usize, t: EdgeTables, lo: usize)
    requires { LinkReady work.old polygons.at polygons.n nv t lo }
    ensures { work.new ≡ splice (edged work.old t nv (edges_of (polygons_at work.old polygons.at polygons.n))) lo (link_records (links_of (polygons_at work.old polygons.at polygons.n))) }
{
    let ne = link_sides(work, polygons, nv, t);
    fill(work, lo, polygons.n * LINK_SIZE, NONE);
    for k in 0..ne {
        store_links(work, t, ne, k, lo);
    }
}
