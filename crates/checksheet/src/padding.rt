// Numbers stored, and 65,535 behind them.
ghost use Rattle.std.specs.Prelude.{◌≡◌, ◌≤◌, ℕ, map};
ghost use Rattle.std.proofs.Common.{rules};
ghost use Rattle.mem.specs.Slice.{splice};
ghost use Rattle.rules.specs.Exits.{padded};
ghost use Rattle.checksheet.specs.Reading.{RowReady};

use words::fill::fill;

// What stands where there is no corner, and no link.
const NONE: u64 = 65535;

// A word in which numbers are stored.
pub trait Word: Copy {
    // The word of a number, and the most that has one.
    ghost word: { ℕ → Self };

    ghost most: { ℕ };

    fn stored(n: u64) -> Self
        requires { n ≤ most }
        ensures { result ≡ word n };

    // 65,535 has one.
    ghost has_none: { 65535 ≤ most };
}

impl Word for u16 {
    ghost word = { λ n. n };

    ghost most = { 65535 };

    ghost has_none = { Prim.search rules };

    fn stored(n: u64) -> u16 {
        n as u16
    }
}

impl Word for u32 {
    ghost word = { λ n. n };

    ghost most = { 4294967295 };

    ghost has_none = { Prim.search rules };

    fn stored(n: u64) -> u32 {
        n as u32
    }
}

// The n words from `at` on become these numbers, and none behind them.
pub fn put_row<T: Word>(row: &mut [T], at: usize, n: usize, values: &[u64])
    requires { RowReady T.most row.old at n values.now }
    ensures { row.new ≡ splice row.old at (map T.word (padded n values.now)) }
{
    for i in 0..values.len() {
        row[at + i] = T::stored(values[i]);
    }
    fill(row, at + values.len(), n - values.len(), T::stored(NONE));
}
