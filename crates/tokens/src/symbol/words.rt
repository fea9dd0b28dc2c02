ghost use Rattle.std.specs.Prelude.{◌≡◌, None};
ghost use Rattle.tokens.specs.Words.{symbol, word_symbol, named, field_number, link_of};
ghost use Rattle.tokens.specs.Lexing.{bytes_of, Apt};
ghost use Rattle.tokens.specs.Symbols.{Says, FieldBy};

use super::numbers::{read_link, read_number};
use super::{Operand, Symbol};
use crate::token::Token;
use values::field::FieldNumber;

/// A field, by its digit.
fn field(digit: u8) -> Option<FieldNumber>
    ensures { FieldBy digit result }
{
    FieldNumber::new(digit.checked_sub(b'0')?)
}

/// A field or a link word.
fn name(part: &[u8]) -> Option<Symbol>
    ensures { Says (named (field_number part.now) (link_of part.now)) result }
{
    match part {
        [b'f', digit] => Some(Symbol::Operand(Operand::Field(field(*digit)?))),
        [b'L', digits @ ..] => Some(Symbol::Link(read_link(digits)?)),
        _ => None,
    }
}

/// A word that begins with a letter.
fn word(part: &[u8]) -> Option<Symbol>
    ensures { Says (word_symbol part.now) result }
{
    match part {
        b"and" => Some(Symbol::And),
        b"or" => Some(Symbol::Or),
        b"not" => Some(Symbol::Not),
        b"true" => Some(Symbol::Truth(true)),
        b"false" => Some(Symbol::Truth(false)),
        _ => name(part),
    }
}

impl Token<'_> {
    /// What the token says, if it is not bad.
    pub(crate) fn symbol(self) -> Option<Symbol>
        requires { Apt self }
        ensures { Says (symbol (bytes_of self.entry)) result }
    {
        match self {
            Token::Word(part) => word(part),
            Token::Number(part) => Some(Symbol::Operand(Operand::Number(read_number(part)?))),
            Token::Open => Some(Symbol::Open),
            Token::Close => Some(Symbol::Close),
            Token::Sign(sign) => Some(Symbol::Sign(sign)),
            Token::Other(_) => None,
        }
    }
}
