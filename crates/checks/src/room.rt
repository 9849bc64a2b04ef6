// The least lengths of the lent buffers, and the first buffer that is shorter.
ghost use Rattle.std.specs.Prelude.{◌≡◌, ◌+◌, ◌*◌, ◌≤◌};
ghost use Rattle.rules.specs.Checks.{first_short};
ghost use Rattle.checks.specs.Answers.{Sized, least_of};

use rules::VERTEX_STRIDE;

// How many buffers are lent.
pub const BUFFERS: usize = 7;

// How many words of the work buffer a build with this V uses.
pub fn work_words(v: usize) -> usize
    requires { v ≤ 65535 }
    ensures { result ≡ 4096 + 128 * v }
{
    4096 + 128 * v
}

// The least lengths, in the order of the buffers, of a job with this nvp, V and T.
pub fn least_lengths(nvp: u32, v: usize, t: usize) -> [usize; BUFFERS]
    requires { Sized nvp v t }
    ensures { result ≡ least_of nvp v t }
{
    let corners = t * nvp as usize;
    [VERTEX_STRIDE * v, corners, corners, t, t, t, work_words(v)]
}

// The first buffer whose length is below its least one.
pub fn first_short(have: [usize; BUFFERS], least: [usize; BUFFERS]) -> Option<usize>
    ensures { result ≡ first_short have least }
{
    (0..BUFFERS).find(|k| have[*k] < least[*k])
}
