ghost use Rattle.std.specs.Prelude.{◌≡◌, ◌<◌, [], length, MatchOption};
ghost use Rattle.conditions.specs.Texts.{text_bytes};

use super::Text;
use lists::BoundedList;

impl Text {
    /// The text with these bytes, where there are at most 60.
    pub fn new(bytes: &[u8]) -> Option<Text>
        ensures { MatchOption result (60 < length bytes.now) (λ t. text_bytes t ≡ bytes.now) }
    {
        let bytes = BoundedList::from_slice(bytes, 0)?;
        Some(Text { bytes })
    }

    pub fn as_bytes(&self) -> &[u8]
        ensures { result.now ≡ text_bytes self.now }
    {
        self.bytes.as_slice()
    }
}

// By hand: no derive makes a default of a struct with ghost fields, as a bounded list is one.
impl Default for Text {
    ghost is_default = { λ t. text_bytes t ≡ [] };

    /// The text with no bytes.
    fn default() -> Text {
        Text {
            bytes: BoundedList::new(0),
        }
    }
}
