// The numbers of faults and objections, and so of verdicts, as request 7 has them.
ghost use Rattle.std.specs.Prelude.{◌≡◌};
ghost use Rattle.rules.specs.Handed.{fault_number, fault_second};
ghost use Rattle.rules.specs.Checker.{objection_number, objection_second, verdict_number, verdict_second};

use rules::{Fault, Objection};

// A fault's number, 40 to 42.
pub fn fault_number(fault: Fault) -> u64
    ensures { result ≡ fault_number fault }
{
    match fault {
        Fault::BadBuffers => 40,
        Fault::BadCorners(_) => 41,
        Fault::BadLinks(_) => 42,
    }
}

// Its second number: the first polygon at fault, or 0.
pub fn fault_second(fault: Fault) -> u64
    ensures { result ≡ fault_second fault }
{
    match fault {
        Fault::BadBuffers => 0,
        Fault::BadCorners(i) => i,
        Fault::BadLinks(i) => i,
    }
}

// An objection's number, 40 to 44.
fn objection_number(objection: Objection) -> u64
    ensures { result ≡ objection_number objection }
{
    match objection {
        Objection::Unsound(fault) => fault_number(fault),
        Objection::BadPortals(_) => 43,
        Objection::BadArea => 44,
    }
}

// Its second number, in the same way.
fn objection_second(objection: Objection) -> u64
    ensures { result ≡ objection_second objection }
{
    match objection {
        Objection::Unsound(fault) => fault_second(fault),
        Objection::BadPortals(i) => i,
        Objection::BadArea => 0,
    }
}

// A verdict's number: 0 if the mesh is accepted, or the objection's.
pub fn verdict_number(verdict: Result<(), Objection>) -> u64
    ensures { result ≡ verdict_number verdict }
{
    match verdict {
        Ok(()) => 0,
        Err(objection) => objection_number(objection),
    }
}

// Its second number, in the same way.
pub fn verdict_second(verdict: Result<(), Objection>) -> u64
    ensures { result ≡ verdict_second verdict }
{
    match verdict {
        Ok(()) => 0,
        Err(objection) => objection_second(objection),
    }
}
