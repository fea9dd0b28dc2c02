use values::amount::Comparison;

/// A token of a condition text. A word or a number is the part of the text itself.
#[derive(Clone, Copy, PartialEq, Eq, Debug)]
pub enum Token<'a> {
    /// Letters and digits, a letter first.
    Word(&'a [u8]),
    /// Letters and digits, a digit first, or a minus and the word directly after it.
    Number(&'a [u8]),
    Open,
    Close,
    Sign(Comparison),
    Other(u8),
}
