// The lines of facets.
ghost use Rattle.std.specs.Prelude.{◌+◌, ◌*◌, ◌≤◌, ◌∷◌, ◌≡◌, length};
ghost use Rattle.mem.specs.Packed.{packed};
ghost use Rattle.mem.specs.Slice.{view};
ghost use Rattle.rules.specs.Lines.{tab_byte};
ghost use Rattle.rules.specs.Stl.{count_in, facet_in, facets_in};
ghost use Rattle.rules.specs.StlText.{coordinate_text, facet_line, facet_lines};
ghost use Rattle.lines.specs.Print.{Room, Printed};

use crate::number::put_coordinate;
use stl::facets::get_facet;
use stl::header::{FACET_BYTES, FRONT_BYTES};

// A coordinate with its tab in front.
fn put_next(out: &mut [u8], at: usize, p: u32) -> usize
    requires { Room out.old (tab_byte ∷ coordinate_text p) at }
    ensures { Printed (tab_byte ∷ coordinate_text p) out.old out.new at result }
{
    out[at] = b'\t';
    put_coordinate(out, at + 1, p)
}

// Coordinates, each with its tab in front.
fn put_others(out: &mut [u8], at: usize, ps: &[u32]) -> usize
    requires { Room out.old (packed (λ p. tab_byte ∷ coordinate_text p) ps.now) at }
    ensures { Printed (packed (λ p. tab_byte ∷ coordinate_text p) ps.now) out.old out.new at result }
{
    let mut to = at;
    for p in ps {
        to = put_next(out, to, *p);
    }
    to
}

// The line of a facet: its nine coordinates, parted by tabs.
fn put_facet_line(out: &mut [u8], at: usize, f: &[u32]) -> usize
    requires f_len { length f.now ≡ 9 }
    requires room { Room out.old (facet_line f.now) at }
    ensures { Printed (facet_line f.now) out.old out.new at result }
{
    let a = put_coordinate(out, at, f[0]);
    let e = put_others(out, a, &f[1..]);
    out[e] = b'\n';
    e + 1
}

// The line of the facet whose bytes begin at `from`.
fn put_facet(out: &mut [u8], at: usize, file: &[u8], from: usize) -> usize
    requires from_in_bounds { from + 50 ≤ length file.now }
    requires room { Room out.old (facet_line (facet_in (view file.now from 50))) at }
    ensures { Printed (facet_line (facet_in (view file.now from 50))) out.old out.new at result }
{
    let mut words = [0u32; 9];
    get_facet(file, from, &mut words, 0);
    put_facet_line(out, at, &words)
}

// The lines of all n facets of a file.
pub fn put_facet_lines(out: &mut [u8], at: usize, file: &[u8], n: usize) -> usize
    requires n_value { n ≡ count_in file.now }
    requires n_in_bounds { 84 + n * 50 ≤ length file.now }
    requires room { Room out.old (facet_lines (facets_in file.now)) at }
    ensures { Printed (facet_lines (facets_in file.now)) out.old out.new at result }
{
    let mut to = at;
    for k in 0..n {
        to = put_facet(out, to, file, FRONT_BYTES + k * FACET_BYTES);
    }
    to
}
