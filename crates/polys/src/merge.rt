// The join of a pair, and the merge of all polygons of one contour or one hole.
ghost use Rattle.std.specs.Prelude.{◌≡◌, cond, [], ◌∷◌, ◌++◌, ◌+◌, ◌≤◌, ◌<◌, eqb};
ghost use Rattle.mem.specs.Slice.{splice};
ghost use Rattle.rules.specs.Mesh.{no_polygon};
ghost use Rattle.rules.specs.Merge.{past_side, joined, join_pair};
ghost use Rattle.records.specs.Layout.{most_corners, polygon_records, Tidy};
ghost use Rattle.records.specs.Values.{corners_of, polygon_of, Loaded, On};
ghost use Rattle.polys.specs.Fields.{polygons_in};
ghost use Rattle.polys.specs.Ready.{JoinReady, MergedTo};
ghost use Rattle.polys.specs.Rows.{wiped, RowsIf, MergeRoom, MergedOver};

use crate::field::Field;
use crate::row::ROW_SIZE;
use crate::search::{AllPairs, KeptRows, Search};
use records::polygon::{NONE, Poly, load_at, store_at, swap_remove};
use records::run::Run;
use rules::Pair;
use words::fill::fill;

// Up to so many polygons no rows are kept, and all pairs are looked at after each join: that is quicker there.
const FEW: usize = 7;

// The region of a join.
fn joined_region(a: u32, b: u32) -> u32
    ensures { result ≡ cond (eqb a b) a 0 }
{
    if a == b { a } else { 0 }
}

// c with p's corners from past its side e on, written from `at` on.
fn put_past(c: [u32; 12], at: usize, p: Poly, e: usize) -> [u32; 12]
    requires { On p e × (at + p.n ≤ most_corners + 1) }
    ensures { result ≡ splice c at (past_side (corners_of p) e) }
{
    let mut d = c;
    for i in 0..p.n - 1 {
        d[at + i] = p.corners[(e + 1 + i) % p.n];
    }
    d
}

// p and q joined: p from past its side ea, then q from past its side eb.
pub fn merge_poly_verts(p: Poly, q: Poly, ea: usize, eb: usize) -> Poly
    requires { On p ea × On q eb × (p.n + q.n ≤ most_corners + 2) }
    ensures { Loaded (joined (polygon_of p) (polygon_of q) ea eb) result }
{
    let na = p.n - 1;
    let nb = q.n - 1;
    let c = put_past([NONE; 12], 0, p, ea);
    Poly {
        corners: put_past(c, na, q, eb),
        n: na + nb,
        region: joined_region(p.region, q.region),
        code: p.code,
    }
}

// The join of a pair takes the place of its first, the last polygon takes the place of its second, and a blank one that of
// the last.
pub fn join_pair(work: &mut [u32], f: Field, m: Pair)
    requires { JoinReady work.old f.polygons.at f.polygons.n f.nvp m }
    ensures { work.new ≡ splice work.old f.polygons.at (polygon_records (join_pair (polygons_in work.old f) m ++ (no_polygon ∷ []))) }
{
    let p = load_at(work, f.polygons, m.a);
    let q = load_at(work, f.polygons, m.b);
    let r = merge_poly_verts(p, q, m.ea, m.eb);
    store_at(work, f.polygons, m.a, r);
    swap_remove(work, f.polygons, m.b);
}

// The polygons are merged as far as they can be, the best pair being found by S. The result says how many are left.
fn merge_pairs<S: Search>(work: &mut [u32], f: Field) -> usize
    requires { RowsIf work.old f S.kept × Tidy work.old f.polygons.at f.polygons.n × (3 < f.nvp) }
    ensures { MergedTo (wiped work.old f.rows f.polygons.n) (wiped work.new f.rows f.polygons.n) f.vertices.at f.vertices.n f.polygons.at f.polygons.n f.nvp result }
{
    let mut n = f.polygons.n;
    loop {
        let g = Field {
            polygons: Run { n, ..f.polygons },
            ..f
        };
        let m = S::best(work, g);
        if m.length == 0 {
            return n;
        }
        join_pair(work, g, m);
        n -= 1;
        S::renew(
            work,
            Field {
                polygons: Run { n, ..f.polygons },
                ..f
            },
            m.a,
            m.b,
        );
    }
}

// The same from the beginning, with zeros left in the room for rows.
fn merge_by<S: Search>(work: &mut [u32], f: Field) -> usize
    requires { MergeRoom work.old f.vertices.at f.vertices.n f.polygons.at f.polygons.n f.nvp f.rows × (3 < f.nvp) }
    ensures { MergedOver work.old work.new f.vertices.at f.vertices.n f.polygons.at f.polygons.n f.nvp f.rows result }
{
    S::begin(work, f);
    let n = merge_pairs::<S>(work, f);
    fill(work, f.rows, f.polygons.n * ROW_SIZE, 0);
    n
}

// The polygons are merged as far as they can be, with zeros left at ro, where there is room for their rows. The result
// says how many are left.
pub fn merge_polys(work: &mut [u32], vertices: Run, polygons: Run, nvp: usize, ro: usize) -> usize
    requires { MergeRoom work.old vertices.at vertices.n polygons.at polygons.n nvp ro }
    ensures { MergedOver work.old work.new vertices.at vertices.n polygons.at polygons.n nvp ro result }
{
    if nvp <= 3 {
        fill(work, ro, polygons.n * ROW_SIZE, 0);
        return polygons.n;
    }
    let f = Field {
        vertices,
        polygons,
        nvp,
        rows: ro,
    };
    if FEW < polygons.n {
        merge_by::<KeptRows>(work, f)
    } else {
        merge_by::<AllPairs>(work, f)
    }
}
