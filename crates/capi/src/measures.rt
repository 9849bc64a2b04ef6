// The distance, and units.
ghost use Rattle.std.specs.Prelude.{◌≡◌};
ghost use Rattle.rules.specs.Distance.{distance_squared};
ghost use Rattle.rules.specs.Units.{size_in};
ghost use Rattle.rules.specs.Units as Units;
ghost use Rattle.capi.specs.Numbers.{point_at};

use plane::distance::distance_squared;
use plane::unit::{cell_size, thousandths, to_millimetres};
use rules::Point;

// The squared distance from the point p to the segment from a to b.
#[unsafe(no_mangle)]
pub extern "C" fn mittencrest_distance_v1(
    px: u16,
    pz: u16,
    ax: u16,
    az: u16,
    bx: u16,
    bz: u16,
) -> f32
    ensures { result ≡ distance_squared (point_at px pz) (point_at ax az) (point_at bx bz) }
{
    distance_squared(
        Point { x: px, z: pz },
        Point { x: ax, z: az },
        Point { x: bx, z: bz },
    )
}

// A length in millimetres.
#[unsafe(no_mangle)]
pub extern "C" fn mittencrest_millimetres_v1(inches: bool, size: f32) -> f32
    ensures { result ≡ Units.millimetres (size_in inches size) }
{
    to_millimetres(cell_size(inches, size))
}

// A length of n thousandths.
#[unsafe(no_mangle)]
pub extern "C" fn mittencrest_thousandths_v1(n: u32) -> f32
    ensures { result ≡ Units.thousandths n }
{
    thousandths(n)
}
