// The kept rows of the merge. They are made from the last one down; after a join those alone are made afresh that it made stale.
ghost use Rattle.std.specs.Prelude.{◌≡◌, ◌+◌, ◌*◌};
ghost use Rattle.mem.specs.Slice.{splice};
ghost use Rattle.rules.specs.Merge.{best_pair};
ghost use Rattle.laws.specs.Rows.{is_moved, is_rival, is_reached, is_stale};
ghost use Rattle.polys.specs.Fields.{vertices_in, polygons_in};
ghost use Rattle.polys.specs.Rows.{row_size, row_record, RowsReadyIn, KeptFrom, Stamped, Renewable, AllRenewable, RowsKept};

use crate::best::greater;
use crate::field::Field;
use crate::row::{keep_row, row_at, stamp_at, stamped_value};
use crate::value::no_pair;
use rules::Pair;

// All rows are made.
pub fn keep_rows(work: &mut [u32], f: Field)
    requires { RowsReadyIn work.old f }
    ensures { RowsKept work.old work.new f }
{
    for r in (0..f.polygons.n).rev() {
        keep_row(work, f, r);
    }
}

// The best pair of all, from the rows.
pub fn best_kept(work: &[u32], f: Field) -> Pair
    requires { KeptFrom work.now f 0 }
    ensures { result ≡ best_pair (vertices_in work.now f) f.nvp (polygons_in work.now f) }
{
    let mut m = no_pair();
    for r in 0..f.polygons.n {
        m = greater(m, row_at(work, f, r));
    }
    m
}

// Whether row r, with the second polygon q, speaks of one that a join of a and b changed or moved: n was the last.
fn is_moved(r: usize, q: usize, a: usize, b: usize, n: usize) -> bool
    ensures { result ≡ is_moved r q a b n }
{
    ((r == a) | (r == b)) | ((q == a) | ((q == b) | (q == n)))
}

// Whether a pair is as long as l, or longer.
fn is_rival(l: u32, m: Pair) -> bool
    ensures { result ≡ is_rival l m }
{
    (0 < m.length) & (l <= m.length)
}

// Whether polygon q comes after r, whose stamp is s, and their pair is as long as l, or longer.
fn is_reached(work: &[u32], f: Field, r: usize, s: u32, q: usize, l: u32) -> bool
    requires { Stamped work.now f r s }
    ensures { result ≡ is_reached (vertices_in work.now f) f.nvp (polygons_in work.now f) r q l }
{
    if q <= r {
        return false;
    }
    if f.polygons.n <= q {
        return false;
    }
    is_rival(l, stamped_value(work, f, r, s, q))
}

// Whether row r, which is m, is stale after a join of a and b.
fn is_stale(work: &[u32], f: Field, a: usize, b: usize, r: usize, m: Pair) -> bool
    requires { Renewable work.now f a b r }
    ensures { result ≡ is_stale (vertices_in work.now f) f.nvp (polygons_in work.now f) a b r m.length m.b }
{
    if is_moved(r, m.b, a, b, f.polygons.n) {
        return true;
    }
    let s = stamp_at(work, f, r);
    if is_reached(work, f, r, s, a, m.length) {
        return true;
    }
    is_reached(work, f, r, s, b, m.length)
}

// Row r after a join of a and b, the rows behind it are kept.
fn renew_row(work: &mut [u32], f: Field, a: usize, b: usize, r: usize)
    requires { Renewable work.old f a b r }
    ensures { work.new ≡ splice work.old (f.rows + r * row_size)
        (row_record (vertices_in work.old f) f.nvp (polygons_in work.old f) r) }
{
    let m = row_at(work, f, r);
    if is_stale(work, f, a, b, r, m) {
        keep_row(work, f, r);
    }
}

// All rows after a join of a and b.
pub fn renew_rows(work: &mut [u32], f: Field, a: usize, b: usize)
    requires { AllRenewable work.old f a b }
    ensures { RowsKept work.old work.new f }
{
    for r in (0..f.polygons.n).rev() {
        renew_row(work, f, a, b, r);
    }
}
