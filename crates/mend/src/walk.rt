// One contour is walked: all its points are passed, and then its ends are seen to.
ghost use Rattle.mend.specs.Walks.{WalkReady, WalkLeft};

use crate::ends::{Span, take_ends};
use crate::lose::Losing;
use crate::pass::pass_all;

// The n points from `first` on. What is left are numbers in the scratch; the list goes on at `lost`, where something is written.
pub fn walk<L: Losing>(
    numbers: &mut [u16],
    list: &mut [u32],
    work: &mut [u32],
    first: usize,
    n: usize,
    lost: usize,
) -> Span
    requires { WalkReady L.writes numbers.old list.old work.old first n lost }
    ensures { WalkLeft L.writes first n lost result numbers.old list.old work.old numbers.new
        list.new work.new }
{
    if n == 0 {
        return Span { lo: 0, n: 0, lost };
    }
    let at = pass_all::<L>(numbers, list, work, first, first + n, lost);
    let whole = Span {
        lo: 0,
        n: at.top,
        lost: at.lost,
    };
    take_ends::<L>(numbers, list, &work[..at.top], whole)
}
