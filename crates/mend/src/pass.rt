// The points of a contour are passed, one after the other. Those that are kept so far are a stack of numbers at the scratch's beginning.
ghost use Rattle.mend.specs.Walking.{MeetsReady, Met, PassReady, Passed, AllReady, AllPassed};

use crate::lose::{Losing, same_place};
use words::places::link_at;

// How high the stack is, and how many points are lost.
#[derive(Clone, Copy)]
pub struct Walk {
    pub top: usize,
    pub lost: usize,
}

// Where the next point is met again: at the stack's top, at the second place of it, or at neither.
#[derive(Clone, Copy)]
enum Meets {
    Top,
    Second,
    Neither,
}

// Where the point j is met; e is past the contour's last point. Under three points none is.
fn meeting(numbers: &[u16], work: &[u32], top: usize, e: usize, j: usize) -> Meets
    requires { MeetsReady numbers.now work.now top e j }
    ensures { Met result numbers.now work.now top e j }
{
    if top + (e - j) < 3 {
        return Meets::Neither;
    }
    if same_place(numbers, link_at(work, top - 1), j) {
        return Meets::Top;
    }
    if top < 2 {
        return Meets::Neither;
    }
    if same_place(numbers, link_at(work, top - 2), j) {
        return Meets::Second;
    }
    Meets::Neither
}

// The point j is passed: it is lost if it is doubled, lost with the top if it comes back, and else joins.
fn pass<L: Losing>(
    numbers: &mut [u16],
    list: &mut [u32],
    work: &mut [u32],
    e: usize,
    j: usize,
    at: Walk,
) -> Walk
    requires { PassReady L.writes numbers.old list.old work.old e j at }
    ensures { Passed L.writes e j at result numbers.old list.old work.old numbers.new list.new
        work.new }
{
    let top = at.top;
    let lost = at.lost;
    match meeting(numbers, work, top, e, j) {
        Meets::Top => {
            let p = link_at(work, top - 1);
            L::lose(numbers, list, lost, p, j);
            Walk {
                lost: lost + 1,
                ..at
            }
        }
        Meets::Second => {
            let p = link_at(work, top - 2);
            let q = link_at(work, top - 1);
            L::lose(numbers, list, lost, p, q);
            L::lose(numbers, list, lost + 1, p, j);
            Walk {
                top: top - 1,
                lost: lost + 2,
            }
        }
        Meets::Neither => {
            work[top] = j as u32;
            Walk { top: top + 1, ..at }
        }
    }
}

// All points of a contour from `first` up to e are passed.
pub fn pass_all<L: Losing>(
    numbers: &mut [u16],
    list: &mut [u32],
    work: &mut [u32],
    first: usize,
    e: usize,
    lost: usize,
) -> Walk
    requires { AllReady L.writes numbers.old list.old work.old first e lost }
    ensures { AllPassed L.writes first e lost result numbers.old list.old work.old numbers.new
        list.new work.new }
{
    work[0] = first as u32;
    let mut at = Walk { top: 1, lost };
    for j in first + 1..e {
        at = pass::<L>(numbers, list, work, e, j, at);
    }
    at
}
