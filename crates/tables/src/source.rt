ghost use Rattle.std.specs.Prelude.{◌≡◌, pos, MatchOption, ◌≢◌};
ghost use Rattle.std.proofs.Common.{lit<};
ghost use Rattle.values.specs.declared.field.FieldNumber.{FieldNumber};
ghost use Rattle.tables.specs.Layout.{source_bytes};
ghost use Rattle.tables.specs.Widths.{wide_source};
ghost use Rattle.tables.specs.Answers.{chosen};

use crate::records::Record;
use values::container::Container;
use values::field::{Field, FieldNumber, Tagged};

/// Where a field of an output comes from.
#[derive(Clone, Copy, PartialEq, Eq, Debug)]
pub enum Source {
    /// The row itself has it.
    Given(Field),
    /// The input's field of that number.
    Copied(FieldNumber),
}

/// The tag in front of the number of a copied field.
const COPIED: u8 = 2;

/// The field number that a value is.
fn field_number(value: i64) -> Option<FieldNumber>
    ensures { MatchOption result ((n : FieldNumber) → value ≢ pos n.number) (λ n. value ≡ pos n.number) }
{
    FieldNumber::new(u8::try_from(value).ok()?)
}

impl Record for Source {
    ghost encoding = { source_bytes };

    ghost WIDTH = { 9 };

    ghost some_bytes = { lit< tt };

    ghost wide = { wide_source };

    const WIDTH: usize = 9;

    fn read(bytes: &[u8]) -> Option<Source> {
        if bytes.len() != Source::WIDTH {
            return None;
        }
        let tagged = Tagged::read(bytes)?;
        if tagged.tag == COPIED {
            Some(Source::Copied(field_number(tagged.value)?))
        } else {
            Some(Source::Given(tagged.field()?))
        }
    }
}

impl Source {
    /// The field that it is over this input.
    pub fn over(self, input: &Container) -> Field
        ensures { result ≡ chosen input.now self }
    {
        match self {
            Source::Given(field) => field,
            Source::Copied(number) => input.field(number),
        }
    }
}
