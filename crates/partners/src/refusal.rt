ghost use Rattle.partners.specs.Refusals.{cause_of, place_of};

use refusals::Refusal;

/// Why a layer is not made.
#[derive(Clone, Copy, PartialEq, Eq, Debug)]
pub enum LayerRefusal {
    /// The tries are not 1 to 8; it holds their number.
    Tries(usize),
}

/// Why a layer is not made, and the partner that was handed over for it.
#[derive(PartialEq, Eq, Debug, Drop)]
pub struct Refused<R, P> {
    // First, as in a layer: LLVM takes minutes over a large partner that moves between two places.
    pub partner: P,
    pub refusal: R,
}

impl Refusal for LayerRefusal {
    ghost cause_number = { cause_of };

    ghost place_number = { place_of };

    fn cause(&self) -> u16 {
        34
    }

    fn place(&self) -> usize {
        let LayerRefusal::Tries(tries) = self;
        *tries
    }
}
