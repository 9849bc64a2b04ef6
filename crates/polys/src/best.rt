// The best pair of polygons: the longest shared side, the first pair on ties.
ghost use Rattle.std.specs.Prelude.{◌≡◌, ◌<◌};
ghost use Rattle.rules.specs.Merge.{best_of_row, best_pair};
ghost use Rattle.rules.specs.Merge as Rules;
ghost use Rattle.polys.specs.Fields.{vertices_in, polygons_in, ReadyIn};

use crate::field::Field;
use crate::value::{get_poly_merge_value, no_pair};
use rules::Pair;

// The longer of two, the first of equal ones.
pub fn greater(best: Pair, m: Pair) -> Pair
    ensures { result ≡ Rules.greater best m }
{
    if best.length < m.length { m } else { best }
}

// The best of `best` and the pairs of polygon a with each one after it.
fn best_of_row(work: &[u32], f: Field, a: usize, best: Pair) -> Pair
    requires { ReadyIn work.now f × (a < f.polygons.n) }
    ensures { result ≡ best_of_row (vertices_in work.now f) f.nvp (polygons_in work.now f) a best }
{
    let mut m = best;
    for b in a + 1..f.polygons.n {
        m = greater(m, get_poly_merge_value(work, f, a, b));
    }
    m
}

// The best pair of all.
pub fn best_pair(work: &[u32], f: Field) -> Pair
    requires { ReadyIn work.now f }
    ensures { result ≡ best_pair (vertices_in work.now f) f.nvp (polygons_in work.now f) }
{
    let mut m = no_pair();
    for a in 0..f.polygons.n {
        m = best_of_row(work, f, a, m);
    }
    m
}
