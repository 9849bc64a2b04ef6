// The words of one polygon.
ghost use Rattle.std.specs.Prelude.{◌+◌, ◌*◌, ◌≤◌, length};
ghost use Rattle.checker.specs.Steps.{RowEnds};

use stored::corners::count_corners;

// Where the corners of polygon i end; they begin at i·nvp.
pub fn corners_end(nvp: usize, polygons: &[u16], i: usize) -> usize
    requires { i * nvp + nvp ≤ length polygons.now }
    ensures { RowEnds nvp polygons.now i result }
{
    let from = i * nvp;
    from + count_corners(&polygons[from..from + nvp])
}
