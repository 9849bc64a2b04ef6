// The points that are kept close up.
ghost use Rattle.std.specs.Prelude.{◌≡◌, ◌*◌, map};
ghost use Rattle.mem.specs.Slice.{splice};
ghost use Rattle.mem.specs.Packed.{packed};
ghost use Rattle.rules.specs.Job.{job_stride};
ghost use Rattle.rules.specs.MendCall.{traced_words};
ghost use Rattle.laws.specs.MendNumbers.{point_of};
ghost use Rattle.mend.specs.Losing.{BothIn};
ghost use Rattle.mend.specs.Closing.{CloseReady};

use checks::counts::JOB_STRIDE;
use words::places::link_at;

// The numbers of the vertex `from` are written at the place `to`.
fn move_vertex(numbers: &mut [u16], from: usize, to: usize)
    requires { BothIn numbers.old from to }
    ensures { numbers.new ≡ splice numbers.old (to * job_stride) (traced_words (point_of numbers.old from)) }
{
    let at = from * JOB_STRIDE;
    numbers.copy_within(at..at + JOB_STRIDE, to * JOB_STRIDE);
}

// The vertices of these numbers, which rise, move to the places from `to` on.
pub fn close_up(numbers: &mut [u16], kept: &[u32], to: usize)
    requires { CloseReady numbers.old kept.now to }
    ensures { numbers.new ≡ splice numbers.old (to * job_stride) (packed traced_words
        (map (point_of numbers.old) kept.now)) }
{
    for i in 0..kept.len() {
        move_vertex(numbers, link_at(kept, i), to + i);
    }
}
