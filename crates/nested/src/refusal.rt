ghost use Rattle.nested.specs.Refusals.{cause_of, place_of};

use refusals::Refusal;

/// Why a flow is not nested.
#[derive(Clone, Copy, PartialEq, Eq, Debug)]
pub enum NestedRefusal {
    /// The result is no activity of the flow; it holds the number.
    NoResult(usize),
}

impl Refusal for NestedRefusal {
    ghost cause_number = { cause_of };

    ghost place_number = { place_of };

    fn cause(&self) -> u16 {
        35
    }

    fn place(&self) -> usize {
        let NestedRefusal::NoResult(number) = self;
        *number
    }
}
