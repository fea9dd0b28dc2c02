ghost use Rattle.std.specs.Prelude.{◌≡◌, MatchBool};
ghost use Rattle.values.specs.Layout.{field_at};
ghost use Rattle.tables.specs.Layout.{fit_bytes, span_bytes};
ghost use Rattle.tables.specs.Records.{Reads};
ghost use Rattle.tables.specs.Answers.{Inside, inside};

use super::Span;
use crate::numbers::signed_number;
use values::container::Container;
use values::field::{Field, FieldNumber, Tagged};

/// What stands for the tested field where every input fits.
const NONE_TESTED: u8 = 255;

/// The span with this tested field, low and high, or no span where every input fits.
fn fit_of(tested: u8, low: i64, high: i64) -> Option<Option<Span>>
    ensures { Reads fit_bytes (span_bytes tested low high) result }
{
    if tested == NONE_TESTED {
        if low == 0 && high == 0 {
            return Some(None);
        }
        return None;
    }
    let field = FieldNumber::new(tested)?;
    if low > high {
        return None;
    }
    Some(Some(Span { field, low, high }))
}

/// The fit that has exactly these bytes: a span, or none.
pub(crate) fn read_fit(bytes: &[u8; 17]) -> Option<Option<Span>>
    ensures { Reads fit_bytes bytes.now result }
{
    let tested = Tagged::read(bytes)?;
    let high = bytes.last_chunk()?;
    fit_of(tested.tag, tested.value, signed_number(high))
}

impl Span {
    /// Whether the tested field of an input is a number from low to high.
    pub(crate) fn fits(&self, input: &Container) -> bool
        ensures value { result ≡ inside self.now (field_at input.now self.now.field.number) }
        ensures says { MatchBool result (Inside self.now (field_at input.now self.now.field.number)) (Inside self.now (field_at input.now self.now.field.number) → ⊥) }
    {
        match input.field(self.field) {
            Field::Blank => false,
            Field::Number(amount) => {
                let size = amount.get();
                self.low <= size && size <= self.high
            }
        }
    }
}
