//! Conditions, terms and factors.

ghost use Rattle.grammar.specs.Grammar.{condition as condition_level, term as term_level, factor as factor_level};
ghost use Rattle.conditions.specs.Steps.{Parsed};

use super::Parser;
use crate::truth::{Truth, conjunction, constant, disjunction, negation};
use tokens::fault::Fault;
use tokens::symbol::{Located, Symbol};

// Conditions and terms are a function each: one for both would ask which part, symbol and table the level has,
// and would have to require that the part is called only below the cycle's measure.
impl<'a> Parser<'a> {
    /// Terms joined by or.
    #[cycle(condition_factor_term)]
    pub(crate) fn condition(&mut self) -> Result<Truth, Fault>
        ensures { Parsed condition_level self.old result self.new }
    {
        let mut value = self.term()?;
        while matches!(self.ahead.symbol, Some(Symbol::Or)) {
            let next = self.term()?;
            value = disjunction(value, next);
        }
        Ok(value)
    }

    /// Factors joined by and.
    #[cycle(condition_factor_term)]
    fn term(&mut self) -> Result<Truth, Fault>
        ensures { Parsed term_level self.old result self.new }
    {
        let mut value = self.factor()?;
        while matches!(self.ahead.symbol, Some(Symbol::And)) {
            let next = self.factor()?;
            value = conjunction(value, next);
        }
        Ok(value)
    }

    /// Not before a factor, a condition in parentheses, true, false, or a test.
    #[cycle(condition_factor_term)]
    fn factor(&mut self) -> Result<Truth, Fault>
        ensures { Parsed factor_level self.old result self.new }
    {
        let Located { place, symbol } = self.lexer.symbol()?;
        let symbol = symbol.ok_or(Fault { place })?;
        match symbol {
            Symbol::Not => {
                let value = self.factor()?;
                Ok(negation(value))
            }
            Symbol::Open => {
                let value = self.condition()?;
                self.close(value)
            }
            Symbol::Truth(value) => {
                self.advance()?;
                Ok(constant(value))
            }
            Symbol::Operand(left) => self.comparison(place, left),
            Symbol::Link(link) => self.link(place, link),
            _ => Err(Fault { place }),
        }
    }
}
