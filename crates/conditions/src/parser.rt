use crate::ground::Ground;
use tokens::lexer::Lexer;
use tokens::symbol::Located;

pub mod reading;
pub mod tests;

/// Reads a condition, one symbol after another, and weighs it on the way.
#[derive(Drop)]
pub(crate) struct Parser<'a> {
    lexer: Lexer<'a>,
    ground: Ground<'a>,
    /// After a factor, the symbol that follows it.
    ahead: Located,
}
