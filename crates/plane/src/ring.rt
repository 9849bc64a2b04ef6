// Places in a ring of n.
ghost use Rattle.std.specs.Prelude.{◌≡◌};
ghost use Rattle.rules.specs.Lists as Rules;

// The place after i.
#[tactic(auto, unfolding(rules::specs::Lists::next))]
pub fn next(i: usize, n: usize) -> usize
    ensures { result ≡ Rules.next i n }
{
    if i < n && i + 1 < n { i + 1 } else { 0 }
}

// The place before i.
#[tactic(auto, unfolding(rules::specs::Lists::prev))]
pub fn prev(i: usize, n: usize) -> usize
    ensures { result ≡ Rules.prev i n }
{
    if i > 0 { i - 1 } else { n.saturating_sub(1) }
}
