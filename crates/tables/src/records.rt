ghost use Rattle.std.specs.Prelude.{◌≡◌, ℕ, ◌<◌, List, [], length};
ghost use Rattle.lists.specs.Lists.{items};
ghost use Rattle.tables.specs.Records.{Reads, WholeRecords, RecordsRead};

use lists::BoundedList;

/// What stands in bytes as records of one width, one after the other.
pub(crate) trait Record: Copy {
    ghost encoding: { Self → List ℕ };

    ghost WIDTH: { ℕ };

    /// How many bytes a record has.
    const WIDTH: usize;

    /// The record that has exactly these bytes.
    fn read(bytes: &[u8]) -> Option<Self>
        ensures { Reads encoding bytes.now result };

    ghost some_bytes: { 0 < WIDTH };

    ghost wide: { (x : Self) → length (encoding x) ≡ WIDTH };
}

/// The number of the first record that is none.
#[derive(Clone, Copy, PartialEq, Eq, Debug)]
pub(crate) struct BadRecord {
    pub(crate) number: usize,
}

/// Reads the records that bytes are, at most `N`, into an empty list.
pub(crate) fn read_records<R: Record, const N: usize>(
    bytes: &[u8],
    records: &mut BoundedList<R, N>,
) -> Result<(), BadRecord>
    requires whole { WholeRecords R.Record.WIDTH N bytes.now }
    requires empty { items records.old ≡ [] }
    ensures { RecordsRead R.Record.encoding R.Record.WIDTH bytes.now (items records.new) result }
{
    for piece in bytes.chunks_exact(R::WIDTH) {
        let number = records.len();
        let record = R::read(piece).ok_or(BadRecord { number })?;
        records.push(record).unwrap();
    }
    Ok(())
}
