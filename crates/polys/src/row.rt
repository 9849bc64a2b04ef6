// One kept row of the merge: of polygon r the best pair with one after it, and its stamp. It stands at f.rows + r * ROW_SIZE, behind the
// polygons. A row is made when those behind it are kept, since it looks at their stamps.
ghost use Rattle.std.specs.Prelude.{◌≡◌, ◌+◌, ◌*◌, ◌≤◌, ◌<◌, length};
ghost use Rattle.mem.specs.Slice.{splice};
ghost use Rattle.rules.specs.Merge.{merge_value};
ghost use Rattle.laws.specs.Rows.{row_of};
ghost use Rattle.polys.specs.Fields.{vertices_in, polygons_in};
ghost use Rattle.polys.specs.Rows.{row_size, row_words, row_record, row_in, stamp_in, RowFits, KeptFrom, Stamped};

use crate::best::greater;
use crate::field::Field;
use crate::stamp::{are_apart, stamp_from};
use crate::value::{get_poly_merge_value, no_pair};
use records::polygon::POLYGON_SIZE;
use rules::Pair;

// The words of a row: its pair but for the first polygon, and its polygon's stamp.
pub const ROW_SIZE: usize = 5;

// The pair of row r.
pub fn row_at(work: &[u32], f: Field, r: usize) -> Pair
    requires { f.rows + r * row_size + row_size ≤ length work.now }
    ensures { result ≡ row_in work.now f.rows r }
{
    let at = f.rows + r * ROW_SIZE;
    Pair {
        length: work[at],
        a: r,
        b: work[at + 1] as usize,
        ea: work[at + 2] as usize,
        eb: work[at + 3] as usize,
    }
}

// The stamp of row r.
pub fn stamp_at(work: &[u32], f: Field, r: usize) -> u32
    requires { f.rows + r * row_size + row_size ≤ length work.now }
    ensures { result ≡ stamp_in work.now f.rows r }
{
    work[f.rows + r * ROW_SIZE + 4]
}

// The words of a row are written at `at`: the pair m, and the stamp s.
fn store_row(work: &mut [u32], at: usize, m: Pair, s: u32)
    requires { RowFits work.old at m }
    ensures { work.new ≡ splice work.old at (row_words m s) }
{
    work[at] = m.length;
    work[at + 1] = m.b as u32;
    work[at + 2] = m.ea as u32;
    work[at + 3] = m.eb as u32;
    work[at + 4] = s;
}

// The value of polygon a, whose stamp is s, and b, after it. Their corners are looked at only if the stamps have a bit in common.
pub fn stamped_value(work: &[u32], f: Field, a: usize, s: u32, b: usize) -> Pair
    requires { Stamped work.now f a s × (a < b) × (b < f.polygons.n) }
    ensures { result ≡ merge_value (vertices_in work.now f) f.nvp (polygons_in work.now f) a b }
{
    if are_apart(s, stamp_at(work, f, b)) {
        return no_pair();
    }
    get_poly_merge_value(work, f, a, b)
}

// The best pair of polygon a, whose stamp is s, with one after it.
fn stamped_row(work: &[u32], f: Field, a: usize, s: u32) -> Pair
    requires { Stamped work.now f a s }
    ensures { result ≡ row_of (vertices_in work.now f) f.nvp (polygons_in work.now f) a }
{
    let mut m = no_pair();
    for b in a + 1..f.polygons.n {
        m = greater(m, stamped_value(work, f, a, s, b));
    }
    m
}

// Row r is made, the rows behind it are kept.
pub fn keep_row(work: &mut [u32], f: Field, r: usize)
    requires { KeptFrom work.old f (r + 1) × (r < f.polygons.n) }
    ensures { work.new ≡ splice work.old (f.rows + r * row_size)
        (row_record (vertices_in work.old f) f.nvp (polygons_in work.old f) r) }
{
    let s = stamp_from(work, f.polygons.at + r * POLYGON_SIZE);
    let m = stamped_row(work, f, r, s);
    store_row(work, f.rows + r * ROW_SIZE, m, s);
}
