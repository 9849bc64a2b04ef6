// Size and height in millimetres, and refusal 70.
ghost use Rattle.std.specs.Prelude.{◌≡◌};
ghost use Rattle.rules.specs.Units.{size_in, millimetres};
ghost use Rattle.rules.specs.Stl.{is_length};

use plane::unit::{cell_size, to_millimetres};

// A cell's size and height with their unit, as they are handed in.
#[derive(Clone, Copy, Debug, PartialEq)]
pub struct Scale {
    pub inches: bool,
    pub size: f32,
    pub height: f32,
}

// A cell's size and height in millimetres.
#[derive(Clone, Copy, Debug, PartialEq)]
pub struct Lengths {
    pub size: f32,
    pub height: f32,
}

// A size or a height in millimetres.
pub fn in_millimetres(inches: bool, x: f32) -> f32
    ensures { result ≡ millimetres (size_in inches x) }
{
    to_millimetres(cell_size(inches, x))
}

// Whether a length in millimetres is finite and above zero.
pub fn is_length(mm: f32) -> bool
    ensures { result ≡ is_length mm }
{
    mm > 0.0 && mm < 1.0 / 0.0
}
