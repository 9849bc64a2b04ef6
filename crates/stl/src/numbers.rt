// The replies' numbers, as request 11 has them.
ghost use Rattle.std.specs.Prelude.{◌≡◌};
ghost use Rattle.rules.specs.StlCall.{stl_refusal_number, stl_refusal_second, stl_number, stl_second};
ghost use Rattle.rules.specs.StlCall.{unstl_refusal_number, unstl_refusal_second, unstl_number, unstl_second};

use checker::numbers::{fault_number, fault_second};
use rules::{StlRefusal, UnstlRefusal};

// The number of a refusal to write: 40 to 42, 70 or 71.
pub fn stl_refusal_number(refusal: StlRefusal) -> u64
    ensures { result ≡ stl_refusal_number refusal }
{
    match refusal {
        StlRefusal::BadMesh(fault) => fault_number(fault),
        StlRefusal::BadScale => 70,
        StlRefusal::ShortFile => 71,
    }
}

// Its second number: the first polygon at fault, or 0.
pub fn stl_refusal_second(refusal: StlRefusal) -> u64
    ensures { result ≡ stl_refusal_second refusal }
{
    match refusal {
        StlRefusal::BadMesh(fault) => fault_second(fault),
        StlRefusal::BadScale => 0,
        StlRefusal::ShortFile => 0,
    }
}

// The number of a reply to writing: 0, or the refusal's.
pub fn stl_number(reply: Result<u64, StlRefusal>) -> u64
    ensures { result ≡ stl_number reply }
{
    match reply {
        Ok(_) => 0,
        Err(refusal) => stl_refusal_number(refusal),
    }
}

// Its second number: the facets, or the refusal's.
pub fn stl_second(reply: Result<u64, StlRefusal>) -> u64
    ensures { result ≡ stl_second reply }
{
    match reply {
        Ok(n) => n,
        Err(refusal) => stl_refusal_second(refusal),
    }
}

// The number of a refusal to read: 71 to 73.
fn unstl_refusal_number(refusal: UnstlRefusal) -> u64
    ensures { result ≡ unstl_refusal_number refusal }
{
    match refusal {
        UnstlRefusal::BadLength => 72,
        UnstlRefusal::NotZero(_) => 73,
        UnstlRefusal::ShortPoints => 71,
    }
}

// Its second number: the first byte that is not zero, or 0.
fn unstl_refusal_second(refusal: UnstlRefusal) -> u64
    ensures { result ≡ unstl_refusal_second refusal }
{
    match refusal {
        UnstlRefusal::BadLength => 0,
        UnstlRefusal::NotZero(i) => i,
        UnstlRefusal::ShortPoints => 0,
    }
}

// The number of a reply to reading: 0, or the refusal's.
pub fn unstl_number(reply: Result<u64, UnstlRefusal>) -> u64
    ensures { result ≡ unstl_number reply }
{
    match reply {
        Ok(_) => 0,
        Err(refusal) => unstl_refusal_number(refusal),
    }
}

// Its second number: the facets, or the refusal's.
pub fn unstl_second(reply: Result<u64, UnstlRefusal>) -> u64
    ensures { result ≡ unstl_second reply }
{
    match reply {
        Ok(n) => n,
        Err(refusal) => unstl_refusal_second(refusal),
    }
}
