// The corners of a stored polygon.
ghost use Rattle.std.specs.Prelude.{◌≡◌, length, take};
ghost use Rattle.rules.specs.Exits.{up_to_none};

// What stands in the words past a polygon's last corner.
pub const UNUSED: u16 = 65535;

// How many of a stored polygon's words are corners: those before the first 65,535.
pub fn count_corners(row: &[u16]) -> usize
    ensures { (result ≡ length (up_to_none row.now)) × (take result row.now ≡ up_to_none row.now) }
{
    row.iter().position(|c| *c == UNUSED).unwrap_or(row.len())
}
