// The cells of a line: how many there are, and where the last one begins.
ghost use Rattle.std.specs.Prelude.{◌≡◌, length};
ghost use Rattle.rules.specs.Lines.{tab_byte, parts};
ghost use Rattle.lines.specs.Read.{LastCell};

// How many cells a line has: one more than it has tabs.
pub fn count_cells(line: &[u8]) -> usize
    ensures { result ≡ length (parts tab_byte line.now) }
{
    line.iter().filter(|b| **b == b'\t').count() + 1
}

// Where the last cell of a line begins: behind the last tab, or at 0 if there is none.
pub fn last_cell(line: &[u8]) -> usize
    ensures { LastCell line.now result }
{
    match line.iter().rev().position(|b| *b == b'\t') {
        Some(k) => line.len() - k,
        None => 0,
    }
}
