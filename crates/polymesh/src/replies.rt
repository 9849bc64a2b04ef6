// The numbers of a refusal, as document 01's table has them.
ghost use Rattle.std.specs.Prelude.{◌≡◌};
ghost use Rattle.rules.specs.Replies.{refusal_number, refusal_second};

use rules::Refusal;

// Its number, 1 to 8.
pub fn refusal_number(refusal: Refusal) -> u64
    ensures { result ≡ refusal_number refusal }
{
    match refusal {
        Refusal::BadCornerLimit(_) => 1,
        Refusal::CountsDisagree => 2,
        Refusal::HighCoordinate(_) => 3,
        Refusal::BadFlag(_) => 4,
        Refusal::TooManyVertices(_) => 5,
        Refusal::ShortBuffer(_) => 6,
        Refusal::NoEarInContour(_) => 7,
        Refusal::NoEarInHole(_) => 8,
    }
}

// Its second number.
pub fn refusal_second(refusal: Refusal) -> u64
    ensures { result ≡ refusal_second refusal }
{
    match refusal {
        Refusal::BadCornerLimit(n) => n,
        Refusal::CountsDisagree => 0,
        Refusal::HighCoordinate(k) => k,
        Refusal::BadFlag(k) => k,
        Refusal::TooManyVertices(n) => n,
        Refusal::ShortBuffer(k) => k,
        Refusal::NoEarInContour(c) => c,
        Refusal::NoEarInHole(i) => i,
    }
}
