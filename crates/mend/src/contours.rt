// The contours of a job, one after the other: what they lose is counted, and then they are mended.
ghost use Rattle.mend.specs.Contours.{ContourReady, ContourMended, CountReady, Counted, AllReady, AllMended};

use crate::close::close_up;
use crate::lose::{Counting, Writing};
use crate::walk::walk;
use words::places::link_at;

// How many points are kept, and how many are lost.
#[derive(Clone, Copy)]
pub struct Tally {
    pub kept: usize,
    pub lost: usize,
}

// The contour of n points from `first` on is mended, and its kept points close up from the vertex `to` on. It keeps so many; the list goes
// on at `lost`.
fn mend_contour(
    numbers: &mut [u16],
    list: &mut [u32],
    work: &mut [u32],
    first: usize,
    n: usize,
    to: usize,
    lost: usize,
) -> Tally
    requires { ContourReady numbers.old list.old work.old first n to lost }
    ensures { ContourMended first n to lost result numbers.old list.old work.old numbers.new
        list.new work.new }
{
    let at = walk::<Writing>(numbers, list, work, first, n, lost);
    let lo = at.lo;
    let kept = at.n;
    close_up(numbers, &work[lo..lo + kept], to);
    Tally {
        kept,
        lost: at.lost,
    }
}

// How many points all contours lose. Only the scratch is written.
pub fn count_lost(lengths: &[u32], numbers: &mut [u16], list: &mut [u32], work: &mut [u32]) -> usize
    requires { CountReady lengths.now numbers.old work.old }
    ensures { Counted result lengths.now numbers.old list.old work.old numbers.new
        list.new work.new }
{
    let mut first = 0;
    let mut lost = 0;
    for length in lengths {
        let n = *length as usize;
        let at = walk::<Counting>(numbers, list, work, first, n, lost);
        lost = at.lost;
        first += n;
    }
    lost
}

// All contours are mended: their lengths and numbers, with the points that are kept in front, and the list.
pub fn mend_all(
    lengths: &mut [u32],
    numbers: &mut [u16],
    list: &mut [u32],
    work: &mut [u32],
) -> Tally
    requires { AllReady lengths.old numbers.old list.old work.old }
    ensures { AllMended result lengths.old numbers.old list.old work.old lengths.new
        numbers.new list.new work.new }
{
    let mut all = Tally { kept: 0, lost: 0 };
    let mut first = 0;
    for c in 0..lengths.len() {
        let n = link_at(lengths, c);
        let one = mend_contour(numbers, list, work, first, n, all.kept, all.lost);
        lengths[c] = one.kept as u32;
        all = Tally {
            kept: all.kept + one.kept,
            lost: one.lost,
        };
        first += n;
    }
    all
}
