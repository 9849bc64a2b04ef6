// How the best pair is found after each join: from all pairs, or from the rows that are kept from join to join.
ghost use Rattle.std.specs.Prelude.{◌≡◌, Bool, true, false};
ghost use Rattle.rules.specs.Merge.{best_pair};
ghost use Rattle.polys.specs.Fields.{vertices_in, polygons_in};
ghost use Rattle.polys.specs.Rows.{RowsReadyIn, RowsIf, RenewIf, KeptIf};

use crate::best::best_pair;
use crate::field::Field;
use crate::rows::{best_kept, keep_rows, renew_rows};
use rules::Pair;

// A way to find the best pair.
pub trait Search {
    // whether rows are kept
    ghost kept: { Bool };

    // What it needs is made, before the first join.
    fn begin(work: &mut [u32], f: Field)
        requires { RowsReadyIn work.old f }
        ensures { KeptIf work.old work.new f kept };

    // The best pair.
    fn best(work: &[u32], f: Field) -> Pair
        requires { RowsIf work.now f kept }
        ensures { result ≡ best_pair (vertices_in work.now f) f.nvp (polygons_in work.now f) };

    // What it needs is made anew, after a join of a and b.
    fn renew(work: &mut [u32], f: Field, a: usize, b: usize)
        requires { RenewIf work.old f a b kept }
        ensures { KeptIf work.old work.new f kept };
}

// All pairs are looked at, and no rows are kept.
pub struct AllPairs;

impl Search for AllPairs {
    ghost kept = { false };

    fn begin(_work: &mut [u32], _f: Field) {}

    fn best(work: &[u32], f: Field) -> Pair {
        best_pair(work, f)
    }

    fn renew(_work: &mut [u32], _f: Field, _a: usize, _b: usize) {}
}

// The rows are kept, and looked at.
pub struct KeptRows;

impl Search for KeptRows {
    ghost kept = { true };

    fn begin(work: &mut [u32], f: Field) {
        keep_rows(work, f);
    }

    fn best(work: &[u32], f: Field) -> Pair {
        best_kept(work, f)
    }

    fn renew(work: &mut [u32], f: Field, a: usize, b: usize) {
        renew_rows(work, f, a, b);
    }
}
