// When all points are passed only the two ends of the stack can be at fault. `stack` is all of it; what is left is a part of it.
ghost use Rattle.mend.specs.Ending.{OffReady, Off, EndsReady, EndsMet, TurnReady, Turned, TakeReady, Taken};

use crate::lose::{Losing, same_place};
use words::places::link_at;

// What is left: n numbers of the stack from `lo` on; and how many points are lost.
#[derive(Clone, Copy)]
pub struct Span {
    pub lo: usize,
    pub n: usize,
    pub lost: usize,
}

// Which ends meet: the last but one and the first, the last and the first, the last and the second, or none.
#[derive(Clone, Copy)]
enum Ends {
    Near,
    Last,
    LastTwo,
    Apart,
}

// The number at the place `gone` of the stack is lost after the one at `kept`; what is left begins at `lo` then.
fn off<L: Losing>(
    numbers: &mut [u16],
    list: &mut [u32],
    stack: &[u32],
    kept: usize,
    gone: usize,
    lo: usize,
    at: Span,
) -> Span
    requires { OffReady L.writes numbers.old list.old stack.now kept gone at }
    ensures { Off L.writes kept gone lo at result stack.now numbers.old list.old numbers.new list.new }
{
    let p = link_at(stack, kept);
    let q = link_at(stack, gone);
    L::lose(numbers, list, at.lost, p, q);
    Span {
        lo,
        n: at.n - 1,
        lost: at.lost + 1,
    }
}

// Which ends meet. Under three points none do.
fn ends_meet(numbers: &[u16], stack: &[u32], at: Span) -> Ends
    requires { EndsReady numbers.now stack.now at }
    ensures { EndsMet result numbers.now stack.now at }
{
    if at.n < 3 {
        return Ends::Apart;
    }
    let first = link_at(stack, at.lo);
    if same_place(numbers, link_at(stack, at.lo + (at.n - 2)), first) {
        return Ends::Near;
    }
    let last = link_at(stack, at.lo + (at.n - 1));
    if same_place(numbers, last, first) {
        return Ends::Last;
    }
    if same_place(numbers, last, link_at(stack, at.lo + 1)) {
        return Ends::LastTwo;
    }
    Ends::Apart
}

// What the ends lose at one turn.
fn off_ends<L: Losing>(numbers: &mut [u16], list: &mut [u32], stack: &[u32], at: Span) -> Span
    requires { TurnReady L.writes numbers.old list.old stack.now at }
    ensures { Turned L.writes at result stack.now numbers.old list.old numbers.new list.new }
{
    let lo = at.lo;
    match ends_meet(numbers, stack, at) {
        Ends::Near => {
            let last = lo + (at.n - 1);
            let rest = off::<L>(numbers, list, stack, last - 1, last, lo, at);
            off::<L>(numbers, list, stack, last - 1, lo, lo + 1, rest)
        }
        Ends::Last => off::<L>(numbers, list, stack, lo + (at.n - 1), lo, lo + 1, at),
        Ends::LastTwo => {
            let last = lo + (at.n - 1);
            let rest = off::<L>(numbers, list, stack, last, lo, lo + 1, at);
            off::<L>(numbers, list, stack, last, lo + 1, lo + 2, rest)
        }
        Ends::Apart => at,
    }
}

// The ends lose what they have to lose, turn by turn.
pub fn take_ends<L: Losing>(
    numbers: &mut [u16],
    list: &mut [u32],
    stack: &[u32],
    from: Span,
) -> Span
    requires { TakeReady L.writes numbers.old list.old stack.now from }
    ensures { Taken L.writes from result stack.now numbers.old list.old numbers.new list.new }
{
    let mut at = from;
    for _ in 0..from.n {
        let next = off_ends::<L>(numbers, list, stack, at);
        if next.n == at.n {
            return next;
        }
        at = next;
    }
    at
}
