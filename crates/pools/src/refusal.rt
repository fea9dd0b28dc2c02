ghost use Rattle.pools.specs.Refusals.{cause_of, place_of};

use refusals::Refusal;

/// Why a pool does not do what it is asked.
#[derive(Clone, Copy, PartialEq, Eq, Debug)]
pub enum PoolRefusal {
    /// All places are taken; it holds how many there are.
    Full(usize),
    /// There is no element.
    Empty,
}

impl Refusal for PoolRefusal {
    ghost cause_number = { cause_of };

    ghost place_number = { place_of };

    fn cause(&self) -> u16 {
        match self {
            PoolRefusal::Full(_) => 37,
            PoolRefusal::Empty => 38,
        }
    }

    fn place(&self) -> usize {
        match self {
            PoolRefusal::Full(places) => *places,
            PoolRefusal::Empty => 0,
        }
    }
}
