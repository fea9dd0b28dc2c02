ghost use Rattle.std.specs.Prelude.{◌≡◌};
ghost use Rattle.tables.specs.Tables.{FirstFitComputed};
ghost use Rattle.tables.specs.Reading.{TableRead, EmptyTable, OneVerdict, OneEncoding};
ghost use Rattle.tables.specs.contracts.table.calls.RuleTablePartner.TheImpl.{ghosts as table_meaning};

use super::RuleTable;
use crate::records::{Record, read_records};
use crate::refusal::TableRefusal;
use crate::row::Row;
use lists::BoundedList;

impl RuleTable {
    /// A table with no rows.
    pub fn new() -> RuleTable
        ensures { EmptyTable table_meaning result }
    {
        RuleTable {
            rows: BoundedList::new(Row::unused()),
        }
    }

    /// Replaces the table by the one that the bytes encode.
    #[tactic(auto, using(crate::proofs::Verdicts::one_verdict, crate::proofs::Verdicts::same_rows, crate::proofs::FirstFits::first_fit_computed))]
    pub fn read(&mut self, bytes: &[u8]) -> Result<(), TableRefusal>
        ensures verdict { TableRead table_meaning bytes.now self.old self.new result }
        ensures one_verdict { OneVerdict bytes.now }
        ensures one_encoding { OneEncoding }
        ensures first_fit { FirstFitComputed }
    {
        let [low, high, rows @ ..] = bytes else {
            return Err(TableRefusal::Size);
        };
        let count = usize::from(u16::from_le_bytes([*low, *high]));
        if count > 64 || rows.len() != Row::WIDTH * count {
            return Err(TableRefusal::Size);
        }
        let mut read = RuleTable::new();
        read_records(rows, &mut read.rows)?;
        *self = read;
        Ok(())
    }
}
