use values::amount::{Amount, Comparison};
use values::field::FieldNumber;

pub mod numbers;
pub mod words;

/// What a token says.
#[derive(Clone, Copy, PartialEq, Eq, Debug)]
pub enum Symbol {
    Or,
    And,
    Not,
    Truth(bool),
    Open,
    Close,
    Operand(Operand),
    Sign(Comparison),
    Link(u8),
}

/// A side of a comparison.
#[derive(Clone, Copy, PartialEq, Eq, Debug)]
pub enum Operand {
    Field(FieldNumber),
    Number(Amount),
}

/// The next symbol and its place, or none and the text's length at the end.
#[derive(Clone, Copy, PartialEq, Eq, Debug)]
pub struct Located {
    pub place: usize,
    pub symbol: Option<Symbol>,
}
