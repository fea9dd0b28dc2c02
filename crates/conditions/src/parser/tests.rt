//! Tests, and the symbol after a factor.

ghost use Rattle.std.specs.Prelude.{◌≡◌};
ghost use Rattle.grammar.specs.Symbols.{operand, link_word};
ghost use Rattle.tokens.specs.Symbols.{side};
ghost use Rattle.conditions.specs.Truths.{amount_of};
ghost use Rattle.conditions.specs.Values.{side_of};
ghost use Rattle.conditions.specs.Steps.{Begun, Advanced, ParsedAt, Closed, Ended, Looks, NextIs, SignIs, OperandIs};

use super::Parser;
use crate::ground::{Ground, Incoming};
use crate::truth::{Truth, compare, constant};
use tokens::fault::Fault;
use tokens::lexer::Lexer;
use tokens::symbol::{Located, Operand, Symbol};
use values::amount::Comparison;
use values::container::Container;
use values::field::Field;

/// The field that an operand stands for.
fn side_of(output: &Container, operand: Operand) -> Field
    ensures { amount_of result ≡ side_of output.now (side operand) }
{
    match operand {
        Operand::Field(number) => output.field(number),
        Operand::Number(amount) => Field::Number(amount),
    }
}

/// The status of the first of the links with this number.
fn look_up(incoming: &[Incoming], link: u8) -> Option<bool>
    ensures { Looks incoming.now link result }
{
    incoming
        .iter()
        .find(|one| one.link == link)
        .map(|one| one.status)
}

impl<'a> Parser<'a> {
    pub(crate) fn new(text: &'a [u8], ground: Ground<'a>) -> Parser<'a>
        ensures { Begun text.now ground.entry result }
    {
        Parser {
            lexer: Lexer::new(text),
            ground,
            ahead: Located {
                place: 0,
                symbol: None,
            },
        }
    }

    /// Nothing follows.
    pub(crate) fn end(&self) -> Result<(), Fault>
        ensures { Ended self.now result }
    {
        if self.ahead.symbol.is_none() {
            Ok(())
        } else {
            Err(self.fault_ahead())
        }
    }

    fn fault_ahead(&self) -> Fault
        ensures { result.place ≡ self.now.ahead.place }
    {
        Fault {
            place: self.ahead.place,
        }
    }

    /// What the next symbol is by this reading, or a fault at its place where it is nothing.
    fn next_as<T, F: FnOnce(Symbol) -> Option<T>>(&mut self, reading: F) -> Result<T, Fault>
        requires { F.IsAlwaysCallable reading }
        ensures { NextIs (F.post reading) self.old result self.new }
    {
        let Located { place, symbol } = self.lexer.symbol()?;
        symbol.and_then(reading).ok_or(Fault { place })
    }

    /// Takes the symbol after a factor.
    pub(crate) fn advance(&mut self) -> Result<(), Fault>
        ensures { Advanced self.old result self.new }
    {
        self.ahead = self.lexer.symbol()?;
        Ok(())
    }

    /// The parenthesis after a condition with this value.
    pub(crate) fn close(&mut self, value: Truth) -> Result<Truth, Fault>
        ensures { Closed self.old value result self.new }
    {
        if !matches!(self.ahead.symbol, Some(Symbol::Close)) {
            return Err(self.fault_ahead());
        }
        self.advance()?;
        Ok(value)
    }
}

impl<'a> Parser<'a> {
    /// A comparison, whose left operand is read at this place. A join text has none.
    pub(crate) fn comparison(&mut self, place: usize, left: Operand) -> Result<Truth, Fault>
        ensures { ParsedAt self.old place (operand (side left)) result self.new }
    {
        let Ground::Transition(output) = self.ground else {
            return Err(Fault { place });
        };
        let sign = self.next_as(
            |symbol: Symbol| -> Option<Comparison>
                ensures { SignIs symbol result }
            {
                match symbol {
                    Symbol::Sign(sign) => Some(sign),
                    _ => None,
                }
            },
        )?;
        let right = self.next_as(
            |symbol: Symbol| -> Option<Operand>
                ensures { OperandIs symbol result }
            {
                match symbol {
                    Symbol::Operand(operand) => Some(operand),
                    _ => None,
                }
            },
        )?;
        self.advance()?;
        Ok(compare(side_of(&output, left), sign, side_of(&output, right)))
    }

    /// The status of a link, whose word is read at this place. A transition text has none.
    pub(crate) fn link(&mut self, place: usize, link: u8) -> Result<Truth, Fault>
        ensures { ParsedAt self.old place (link_word link) result self.new }
    {
        let Ground::Join(incoming) = self.ground else {
            return Err(Fault { place });
        };
        let status = look_up(incoming, link).ok_or(Fault { place })?;
        self.advance()?;
        Ok(constant(status))
    }
}
