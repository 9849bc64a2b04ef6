// One point is lost.
ghost use Rattle.std.specs.Prelude.{◌≡◌, Bool, true, false};
ghost use Rattle.laws.specs.MendNumbers.{carried, same_place};
ghost use Rattle.mend.specs.Losing.{BothIn, LoseReady, Lost};

use checks::counts::JOB_STRIDE;

// Whether the vertices p and q are equal in x and z.
pub fn same_place(numbers: &[u16], p: usize, q: usize) -> bool
    requires { BothIn numbers.now p q }
    ensures { result ≡ same_place numbers.now p q }
{
    let a = p * JOB_STRIDE;
    let b = q * JOB_STRIDE;
    (numbers[a] == numbers[b]) & (numbers[a + 2] == numbers[b + 2])
}

// The vertex p takes a 1 if q has it.
fn carry(numbers: &mut [u16], p: usize, q: usize)
    requires { BothIn numbers.old p q }
    ensures { numbers.new ≡ carried numbers.old p q }
{
    if numbers[q * JOB_STRIDE + 3] == 1 {
        numbers[p * JOB_STRIDE + 3] = 1;
    }
}

// What a walk does with a point that is lost.
pub trait Losing {
    // whether it writes
    ghost writes: { Bool };

    // The vertex q is lost, and p kept.
    fn lose(numbers: &mut [u16], list: &mut [u32], lost: usize, p: usize, q: usize)
        requires { LoseReady writes numbers.old list.old lost p q }
        ensures { Lost writes numbers.old list.old numbers.new list.new lost p q };
}

// A walk that only counts: nothing is written.
pub struct Counting;

impl Losing for Counting {
    ghost writes = { false };

    fn lose(_numbers: &mut [u16], _list: &mut [u32], _lost: usize, _p: usize, _q: usize) {}
}

// A walk that writes: p takes q's 1, and the list q's number.
pub struct Writing;

impl Losing for Writing {
    ghost writes = { true };

    fn lose(numbers: &mut [u16], list: &mut [u32], lost: usize, p: usize, q: usize) {
        carry(numbers, p, q);
        list[lost] = q as u32;
    }
}
