/// Where a condition text stops being one: the place of the first token with which no condition can
/// go on, or the text's length.
#[derive(Clone, Copy, PartialEq, Eq, Debug)]
pub struct Fault {
    pub place: usize,
}
