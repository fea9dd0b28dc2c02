ghost use Rattle.std.specs.Prelude.{◌≡◌};
ghost use Rattle.tables.specs.Tables.{rows_of, first_fitting, ByFirstFit, table_answers, no_row_fault};

use super::RuleTable;
use crate::row::Row;
use partners::fault::Fault;
use partners::partner::{Partner, Reply};
use values::container::Container;

/// The fault where no row fits.
fn no_row() -> Fault
    ensures { result ≡ no_row_fault }
{
    Fault::new(1).unwrap()
}

impl RuleTable {
    /// The first row of this operation that fits the input.
    pub fn first_fitting(&self, operation: u16, input: &Container) -> Option<Row>
        ensures value { result ≡ first_fitting operation input.now (rows_of self.now) }
        ensures says { ByFirstFit (rows_of self.now) operation input.now result }
    {
        self.rows
            .as_slice()
            .iter()
            .find(|row| row.applies(operation, input))
            .copied()
    }
}

impl Partner for RuleTable {
    ghost answers = { λ t. table_answers (rows_of t) };

    ghost busy = { λ _. 0 };

    fn call(&mut self, operation: u16, input: &Container, output: &mut Container) -> Reply {
        let Some(row) = self.first_fitting(operation, input) else {
            *output = Container::blank();
            return Reply::Fault(no_row());
        };
        row.answer(input, output)
    }
}
