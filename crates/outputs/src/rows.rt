// The polygons' corners and links go out: nvp words for each polygon, 65,535 behind the last that is used.
ghost use Rattle.std.specs.Prelude.{◌≡◌, ◌+◌, ◌≤◌, length};
ghost use Rattle.mem.specs.Slice.{view, splice};
ghost use Rattle.mem.specs.Packed.{packed};
ghost use Rattle.rules.specs.Exits.{padded, corner_words};
ghost use Rattle.records.specs.Layout.{polygons_at};
ghost use Rattle.records.specs.Values.{polygon_of};
ghost use Rattle.links.specs.Ready.{links_at};
ghost use Rattle.outputs.specs.Ready.{RowReady, CornersReady, LinksReady};

use crate::store::Places;
use records::polygon::{LINK_SIZE, Poly, load_at};
use records::run::Run;

// The corners of p, and 65,535 behind them, n words in all, go to `to`.
fn put_corners(out: &mut [u16], to: usize, p: Poly, n: usize)
    requires { RowReady out.old to p n }
    ensures { out.new ≡ splice out.old to (corner_words n (polygon_of p)) }
{
    for k in 0..n {
        out[to + k] = p.corners[k] as u16;
    }
}

// The polygons' corners go to the beginning of out.
pub fn copy_corners(work: &[u32], at: Places, nvp: usize, out: &mut [u16])
    requires { CornersReady work.now at.polygons.at at.polygons.n nvp out.old }
    ensures { out.new ≡ splice out.old 0 (packed (corner_words nvp) (polygons_at work.now at.polygons.at at.polygons.n)) }
{
    for i in 0..at.polygons.n {
        let p = load_at(work, at.polygons, i);
        put_corners(out, i * nvp, p, nvp);
    }
}

// The n words at `at` go to `to`.
fn put_links(work: &[u32], at: usize, n: usize, out: &mut [u32], to: usize)
    requires { (at + n ≤ length work.now) × (to + n ≤ length out.old) }
    ensures { out.new ≡ splice out.old to (view work.now at n) }
{
    out[to..to + n].copy_from_slice(&work[at..at + n]);
}

// The polygons' links go to the beginning of out.
pub fn copy_links(work: &[u32], at: Places, nvp: usize, out: &mut [u32])
    requires { LinksReady work.now at.polygons.at at.polygons.n at.links nvp out.old }
    ensures { out.new ≡ splice out.old 0 (packed (padded nvp) (links_at work.now at.links (polygons_at work.now at.polygons.at at.polygons.n))) }
{
    for i in 0..at.polygons.n {
        put_links(work, at.links + i * LINK_SIZE, nvp, out, i * nvp);
    }
}
