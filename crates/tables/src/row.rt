ghost use Rattle.std.specs.Prelude.{◌≡◌, MatchBool};
ghost use Rattle.std.proofs.Common.{lit<};
ghost use Rattle.tables.specs.Layout.{row_bytes};
ghost use Rattle.tables.specs.Widths.{wide_row};
ghost use Rattle.tables.specs.Answers.{FitsInput, fits_input, Applies, applies, row_answer, Replied};

use crate::fit::Span;
use crate::fit::reading::read_fit;
use crate::outcome::RowFault;
use crate::outcome::reading::read_outcome;
use crate::outputs::Outputs;
use crate::records::Record;
use partners::partner::Reply;
use values::container::Container;

/// A row of a rule table: its operation, the span that its input has to be in, and what it answers.
#[derive(Clone, Copy, PartialEq, Eq, Debug)]
pub struct Row {
    operation: u16,
    fit: Option<Span>,
    outcome: Result<Outputs, RowFault>,
}

impl Record for Row {
    ghost encoding = { row_bytes };

    ghost WIDTH = { 93 };

    ghost some_bytes = { lit< tt };

    ghost wide = { wide_row };

    const WIDTH: usize = 93;

    fn read(bytes: &[u8]) -> Option<Row> {
        let (operation, rest) = bytes.split_first_chunk()?;
        let (fit, outcome) = rest.split_first_chunk()?;
        Some(Row {
            operation: u16::from_le_bytes(*operation),
            fit: read_fit(fit)?,
            outcome: read_outcome(outcome.as_array()?)?,
        })
    }
}

impl Row {
    /// A row for the places of a table that are not in use.
    // Not inlined: a row whose fields are known is copied to the places of a table in parts, which takes longer.
    #[inline(never)]
    pub(crate) fn unused() -> Row {
        Row {
            operation: 0,
            fit: None,
            outcome: Ok(Outputs::blank()),
        }
    }

    /// Whether an input fits: every input fits a row with no span.
    pub fn fits(&self, input: &Container) -> bool
        ensures value { result ≡ fits_input self.now.fit input.now }
        ensures says { MatchBool result (FitsInput self.now.fit input.now) (FitsInput self.now.fit input.now → ⊥) }
    {
        self.fit.is_none_or(|span| span.fits(input))
    }

    /// Whether the row is of this operation and fits this input.
    pub fn applies(&self, operation: u16, input: &Container) -> bool
        ensures value { result ≡ applies operation input.now self.now }
        ensures says { MatchBool result (Applies operation input.now self.now) (Applies operation input.now self.now → ⊥) }
    {
        self.operation == operation && self.fits(input)
    }

    /// Hands over what the row answers to this input.
    pub fn answer(&self, input: &Container, output: &mut Container) -> Reply
        ensures { Replied (row_answer input.now self.now) output.new result }
    {
        match self.outcome {
            Ok(outputs) => {
                *output = outputs.over(input);
                Reply::Done
            }
            Err(row_fault) => {
                *output = Container::blank();
                Reply::Fault(row_fault.fault())
            }
        }
    }
}
