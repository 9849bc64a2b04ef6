// 41: each polygon has 3 corners or more, all in range, and 65,535 after them.
ghost use Rattle.std.specs.Prelude.{◌≡◌, ◌*◌, ◌≤◌, ltb, length, get_or};
ghost use Rattle.rules.specs.Handed.{all_of, first_fault};
ghost use Rattle.checker.specs.Steps.{row_holds, row_at};

use stored::corners::{UNUSED, count_corners};

// Whether the first n words of a row are vertices, of which there are nv.
fn are_vertices(row: &[u16], n: usize, nv: usize) -> bool
    requires { n ≤ length row.now }
    ensures { result ≡ all_of (λ k. ltb (get_or row.now k 0) nv) 0 n }
{
    row[..n].iter().all(|c| usize::from(*c) < nv)
}

// Whether the words of a polygon pass.
fn row_holds(row: &[u16], nv: usize) -> bool
    ensures { result ≡ row_holds nv row.now }
{
    let n = count_corners(row);
    if n < 3 {
        return false;
    }
    are_vertices(row, n, nv) && row[n..].iter().all(|c| *c == UNUSED)
}

// The first of np polygons that doesn't.
pub fn first_bad_corners(nvp: usize, nv: usize, np: usize, polygons: &[u16]) -> Option<usize>
    requires { np * nvp ≤ length polygons.now }
    ensures { result ≡ first_fault (λ i. row_holds nv (row_at nvp polygons.now i)) np }
{
    (0..np).find(|i| {
        let from = i * nvp;
        !row_holds(&polygons[from..from + nvp], nv)
    })
}
