ghost use Rattle.std.specs.Prelude.{◌≡◌, length, min};
ghost use Rattle.lists.specs.Lists.{items};

use lists::BoundedList;
use partners::fault::Fault;
use values::container::Container;

pub mod calls;
pub mod making;

/// A call as it came: the operation and the input.
#[derive(Clone, Copy, PartialEq, Eq, Debug)]
pub struct Call {
    pub operation: u16,
    pub input: Container,
}

/// For tests only. It is busy as often as it is told, and then gives every input back as the output,
/// or faults where it is told to. The first 16 calls are listed; the count goes on past them.
#[derive(Clone, Copy)]
pub struct Listing {
    calls: BoundedList<Call, 16>,
    count: usize,
    busy: usize,
    fault: Option<Fault>,
    ghost first_listed: { length (items calls) ≡ min count 16 },
}
