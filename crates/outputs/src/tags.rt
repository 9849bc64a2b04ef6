// The polygons' regions, area codes and flags go out: one word for each polygon.
ghost use Rattle.std.specs.Prelude.{◌≡◌, map, ◌≤◌, length, replicate};
ghost use Rattle.mem.specs.Slice.{splice};
ghost use Rattle.records.specs.Layout.{polygons_at};
ghost use Rattle.outputs.specs.Ready.{RegionsReady, CodesReady};

use crate::store::Places;
use records::polygon::POLYGON_SIZE;

// The polygons' regions and area codes go to the beginning of two buffers.
pub fn copy_tags(work: &[u32], at: Places, regions: &mut [u16], codes: &mut [u8])
    requires { RegionsReady work.now at.polygons.at at.polygons.n regions.old × CodesReady work.now at.polygons.at at.polygons.n codes.old }
    ensures regions { regions.new ≡ splice regions.old 0 (map (λ p. p.region) (polygons_at work.now at.polygons.at at.polygons.n)) }
    ensures codes { codes.new ≡ splice codes.old 0 (map (λ p. p.code) (polygons_at work.now at.polygons.at at.polygons.n)) }
{
    for i in 0..at.polygons.n {
        let from = at.polygons.at + i * POLYGON_SIZE;
        regions[i] = work[from + 1] as u16;
        codes[i] = work[from + 2] as u8;
    }
}

// The flags of np polygons are 0.
pub fn clear_flags(out: &mut [u16], np: usize)
    requires { np ≤ length out.old }
    ensures { out.new ≡ splice out.old 0 (replicate np 0) }
{
    out[..np].fill(0);
}
