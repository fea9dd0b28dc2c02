ghost use Rattle.std.specs.Prelude.{◌≤◌};
ghost use Rattle.partners.specs.Answers.{fault_code};

use partners::fault::Fault;

pub mod reading;

/// A fault that a row may answer with: its code is 10 or more.
#[derive(Clone, Copy, PartialEq, Eq, Debug)]
pub struct RowFault {
    fault: Fault,
    ghost from_ten: { 10 ≤ fault_code fault },
}
