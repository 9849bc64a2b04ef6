// The polygons that hold a vertex go, and in the others numbers above it drop by one.
ghost use Rattle.std.specs.Prelude.{◌≡◌, map, ◌+◌};
ghost use Rattle.mem.specs.Slice.{splice};
ghost use Rattle.rules.specs.Removal.{dropped_in};
ghost use Rattle.rules.specs.Removal as Rules;
ghost use Rattle.records.specs.Layout.{polygons_at, polygon_records};
ghost use Rattle.records.specs.Values.{corners_from, Stands};
ghost use Rattle.holes.specs.Clear.{ClearReady, TakenTo, ClearedTo};

use records::corner::count_from;
use records::polygon::{CORNERS_AT, POLYGON_SIZE, swap_remove};
use records::run::Run;
use trails::sides::{dropped, is_held};

// Of the polygons, those that hold the vertex go: the last takes such a one's place, and is looked at next. The
// result says how many are left.
fn take_out(work: &mut [u32], polygons: Run, rem: u32) -> usize
    requires { ClearReady work.old polygons.at polygons.n }
    ensures { TakenTo work.old work.new polygons.at polygons.n rem result }
{
    let mut m = polygons.n;
    let mut i = 0;
    while i < m {
        if is_held(
            work,
            Run {
                at: polygons.at,
                n: m,
            },
            i,
            rem,
        ) {
            swap_remove(
                work,
                Run {
                    at: polygons.at,
                    n: m,
                },
                i,
            );
            m -= 1;
            continue;
        }
        i += 1;
    }
    m
}

// The corners of the polygon whose words start at `at` get the numbers that hold once the vertex has gone.
fn drop_corners(work: &mut [u32], at: usize, rem: u32)
    requires { Stands work.old at }
    ensures { work.new ≡ splice work.old (at + 3) (map (Rules.dropped rem) (corners_from work.old at)) }
{
    let n = count_from(work, at);
    for j in 0..n {
        work[at + CORNERS_AT + j] = dropped(work[at + CORNERS_AT + j], rem);
    }
}

// The n polygons at o get those numbers.
fn drop_numbers(work: &mut [u32], o: usize, n: usize, rem: u32)
    requires { ClearReady work.old o n }
    ensures { work.new ≡ splice work.old o (polygon_records (map (dropped_in rem) (polygons_at work.old o n))) }
{
    for i in 0..n {
        drop_corners(work, o + i * POLYGON_SIZE, rem);
    }
}

// Both: the polygons that are left once the vertex has gone, with blank records behind them. The result says how many.
pub fn clear_polygons(work: &mut [u32], polygons: Run, rem: u32) -> usize
    requires { ClearReady work.old polygons.at polygons.n }
    ensures { ClearedTo work.old work.new polygons.at polygons.n rem result }
{
    let m = take_out(work, polygons, rem);
    drop_numbers(work, polygons.at, m, rem);
    m
}
