// The cell size: its unit, thousandths, and millimetres.
ghost use Rattle.std.specs.Prelude.{◌≡◌};
ghost use Rattle.rules.specs.Units.{size_in, millimetres};
ghost use Rattle.rules.specs.Units as Units;

use rules::CellSize;

// A size with its unit.
#[tactic(auto, unfolding(rules::specs::Units::size_in))]
pub fn cell_size(inches: bool, size: f32) -> CellSize
    ensures { result ≡ size_in inches size }
{
    if inches {
        CellSize::Inches(size)
    } else {
        CellSize::Millimetres(size)
    }
}

// A length of n thousandths. f32 holds every number up to 16,777,216, so that there is one rounding.
pub fn thousandths(n: u32) -> f32
    ensures { result ≡ Units.thousandths n }
{
    std::num::nearest_u32_to_f32(n) / 1000.0
}

// A size in millimetres is itself, and one in inches is multiplied once.
#[tactic(auto, unfolding(rules::specs::Units::millimetres, rules::specs::Units::per_inch))]
pub fn to_millimetres(c: CellSize) -> f32
    ensures { result ≡ millimetres c }
{
    match c {
        CellSize::Millimetres(x) => x,
        CellSize::Inches(x) => x * 25.4,
    }
}
