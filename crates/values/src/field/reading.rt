ghost use Rattle.std.specs.Prelude.{◌≡◌, ℕ, ◌<◌, ◌≤◌, length, take, MatchOption, ◌≢◌};
ghost use Rattle.values.specs.declared.field.Field.{Field};
ghost use Rattle.values.specs.Layout.{HasTag, tagged, field_bytes};

use super::{Field, FieldNumber, Tag, Tagged, UnknownTag};
use crate::amount::Amount;

impl FieldNumber {
    pub fn new(number: u8) -> Option<FieldNumber>
        ensures { MatchOption result (8 ≤ number) (λ n. n.number ≡ number) }
    {
        if number < 8 {
            Some(FieldNumber { number })
        } else {
            None
        }
    }

    pub(crate) fn at(number: u8) -> FieldNumber
        requires { number < 8 }
        ensures { result.number ≡ number }
    {
        FieldNumber { number }
    }

    pub fn get(self) -> u8
        ensures value { result ≡ self.number }
        ensures range { result < 8 }
    {
        self.number
    }
}

impl TryFrom<u8> for Tag {
    type Error = UnknownTag;

    ghost try_from_gives = { HasTag };

    fn try_from(number: u8) -> Result<Tag, UnknownTag> {
        match number {
            0 => Ok(Tag::Blank),
            1 => Ok(Tag::Number),
            _ => Err(UnknownTag(number)),
        }
    }
}

impl Tagged {
    /// The tag and the value in the first nine bytes.
    pub fn read(bytes: &[u8]) -> Option<Tagged>
        ensures { MatchOption result (length bytes.now < 9) (λ t. take 9 bytes.now ≡ tagged t.tag t.value) }
    {
        let [tag, a, b, c, d, e, f, g, h, ..] = bytes else {
            return None;
        };
        let value = i64::from_le_bytes([*a, *b, *c, *d, *e, *f, *g, *h]);
        Some(Tagged { tag: *tag, value })
    }

    /// The field that this tag and value stand for.
    pub fn field(self) -> Option<Field>
        ensures { MatchOption result ((f : Field) → field_bytes f ≢ tagged self.tag self.value) (λ f. field_bytes f ≡ tagged self.tag self.value) }
    {
        match Tag::try_from(self.tag).ok()? {
            Tag::Blank if self.value == 0 => Some(Field::Blank),
            Tag::Blank => None,
            Tag::Number => Some(Field::Number(Amount::new(self.value)?)),
        }
    }
}

impl Field {
    /// The field whose layout the first nine bytes have.
    pub fn read(bytes: &[u8]) -> Option<Field>
        ensures { MatchOption result ((f : Field) → take 9 bytes.now ≢ field_bytes f) (λ f. take 9 bytes.now ≡ field_bytes f) }
    {
        Tagged::read(bytes)?.field()
    }
}
