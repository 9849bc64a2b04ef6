// R2: one cut after the other, in a part of the work buffer: n points, n index words, and the triangles.
ghost use Rattle.std.specs.Prelude.{◌≡◌, [], ◌∷◌, ◌++◌, ◌+◌, ◌-◌, ◌*◌, ◌≤◌, ◌<◌, length, take, is_some};
ghost use Rattle.mem.specs.Slice.{view, splice};
ghost use Rattle.rules.specs.Lists.{without};
ghost use Rattle.rules.specs.Diagonal.{is_diagonal};
ghost use Rattle.rules.specs.Ears.{indices, point_at, remark, mark_all, find_ear, triangle_at, remark_gap, cut_ear};
ghost use Rattle.rules.specs.declared.Kind.TheVariants.{Strict};
ghost use Rattle.rules.specs.Ears as Rules;
ghost use Rattle.plane.specs.Points.{points_in};
ghost use Rattle.ears.specs.Part.{points_of, Laid, answer_of, cut_in, Ready};
ghost use Rattle.ears.specs.Turn.{cut_once, AllCut};

use crate::diagonal::is_diagonal;
use crate::index::{index_of, with_mark};
use crate::search::find_ear;
use plane::ring::{next, prev};
use rules::{Ear, Kind};
use words::fill::fill;

// No ear was left to cut, after so many triangles.
#[derive(Clone, Copy, Debug, PartialEq, Eq)]
pub struct NoEar {
    pub after: usize,
}

// The words 0, 1, .., n - 1.
fn count_up(ix: &mut [u32])
    requires { length ix.old ≤ 4294967295 }
    ensures { ix.new ≡ indices (length ix.old) }
{
    let n = ix.len();
    for k in 0..n {
        ix[k] = k as u32;
    }
}

// The word at place k goes: what follows moves down by one, and a zero comes in at the end.
fn close_gap(ix: &mut [u32], k: usize)
    requires { k < length ix.old }
    ensures { ix.new ≡ without ix.old k ++ (0 ∷ []) }
{
    let last = ix.len() - 1;
    ix.copy_within(k + 1.., k);
    ix[last] = 0;
}

// Whether place i to place j is a strict diagonal of the m words that stand behind the a words of points.
fn diagonal_in(w: &[u32], a: usize, m: usize, i: usize, j: usize) -> bool
    requires { Ready a m w.now × (i < m) × (j < m) }
    ensures { result ≡ is_diagonal Strict (point_at (points_in (take a w.now)) (view w.now a m)) m i j }
{
    let e = a + m;
    is_diagonal(Kind::Strict, &w[..a], &w[a..e], i, j)
}

// Place k is marked if place i to place j is a strict diagonal, and else unmarked.
fn remark_in(w: &mut [u32], a: usize, m: usize, i: usize, j: usize, k: usize)
    requires { Ready a m w.old × (i < m) × (j < m) × (k < m) }
    ensures { w.new ≡ splice w.old a (remark (points_in (take a w.old)) i j k (view w.old a m)) }
{
    let on = diagonal_in(&w[..], a, m, i, j);
    let at = a + k;
    w[at] = with_mark(on, w[at]);
}

// At the start i+1 is marked if i to i+2 is a strict diagonal.
fn mark_all(w: &mut [u32], a: usize, m: usize)
    requires { Ready a m w.old }
    ensures { w.new ≡ splice w.old a (mark_all (points_in (take a w.old)) (view w.old a m)) }
{
    for i in 0..m {
        let i1 = next(i, m);
        remark_in(&mut *w, a, m, i, next(i1, m), i1);
    }
}

// The two places beside a gap are marked or unmarked afresh: i before it, then i1 after it.
fn remark_gap(w: &mut [u32], a: usize, m: usize, i: usize, i1: usize)
    requires { Ready a m w.old × (i < m) × (i1 < m) }
    ensures { w.new ≡ splice w.old a (remark_gap (points_in (take a w.old)) i i1 (view w.old a m)) }
{
    remark_in(&mut *w, a, m, prev(i, m), i1, i);
    remark_in(w, a, m, i, next(i1, m), i1);
}

// The vertex after place i is cut.
fn cut_ear(w: &mut [u32], a: usize, m: usize, i: usize)
    requires { Ready a m w.old × (i < m) × (1 < m) }
    ensures { w.new ≡ splice w.old a (cut_ear (points_in (take a w.old)) i (view w.old a m) ++ (0 ∷ [])) }
{
    let e = a + m;
    let k = next(i, m);
    close_gap(&mut w[a..e], k);
    let n = m - 1;
    let i1 = if k < n { k } else { 0 };
    remark_gap(w, a, n, prev(i1, n), i1);
}

// The triangle at place i goes to the words from t on.
fn put_triangle(w: &mut [u32], a: usize, m: usize, i: usize, t: usize)
    requires { (i < m) × (a + m ≤ t) × (t + 3 ≤ length w.old) }
    ensures { w.new ≡ splice w.old t (triangle_at (view w.old a m) i) }
{
    let i1 = next(i, m);
    let i2 = next(i1, m);
    let x = index_of(w[a + i]);
    let y = index_of(w[a + i1]);
    let z = index_of(w[a + i2]);
    w[t] = x;
    w[t + 1] = y;
    w[t + 2] = z;
}

// The ear of the m words behind the points.
fn ear_in(w: &[u32], a: usize, m: usize) -> Option<Ear>
    requires { Ready a m w.now }
    ensures { result ≡ find_ear (points_in (take a w.now)) (view w.now a m) }
{
    let e = a + m;
    find_ear(&w[..a], &w[a..e])
}

// One turn: the triangle of the ear with the least key goes to the words from t on, and the ear is cut. False if there
// is no ear.
fn cut_one(w: &mut [u32], a: usize, m: usize, t: usize) -> bool
    requires { Ready a m w.old × (1 < m) × (a + m ≤ t) × (t + 3 ≤ length w.old) }
    ensures found { result ≡ is_some (find_ear (points_in (take a w.old)) (view w.old a m)) }
    ensures words { w.new ≡ cut_once a m t w.old }
{
    let Some(ear) = ear_in(&w[..], a, m) else {
        return false;
    };
    put_triangle(&mut *w, a, m, ear.at, t);
    cut_ear(w, a, m, ear.at);
    true
}

// One turn after the other, while more than three words remain; the last three are a triangle. The triangles stand
// behind the n index words.
fn cut_all(w: &mut [u32], a: usize, n: usize) -> Result<usize, NoEar>
    requires { Ready a n w.old × (3 ≤ n) × (a + n + (n - 2) * 3 ≤ length w.old) }
    ensures { AllCut a n w.old w.new result }
{
    let mut m = n;
    let mut count = 0;
    while 3 < m {
        let t = a + n + count * 3;
        if cut_one(&mut *w, a, m, t) {
            m -= 1;
            count += 1;
        } else {
            return Err(NoEar { after: count });
        }
    }
    let t = a + n + count * 3;
    put_triangle(w, a, 3, 0, t);
    Ok(count + 1)
}

// The triangles of the n points that are laid into the part; Rust's `triangulate`.
pub fn triangulate(part: &mut [u32], n: usize) -> Result<usize, NoEar>
    requires { Laid n part.old }
    ensures answer { result ≡ answer_of (Rules.triangulate (points_of n part.old)) }
    ensures words { part.new ≡ cut_in n part.old (Rules.triangulate (points_of n part.old)) }
{
    let a = n * 2;
    let b = n * 3;
    count_up(&mut part[a..b]);
    mark_all(&mut *part, a, n);
    let t = cut_all(&mut *part, a, n);
    let e = part.len();
    match t {
        Ok(_) => {
            fill(part, a, n, 0);
        }
        Err(_) => {
            fill(part, a, e - a, 0);
        }
    }
    t
}
