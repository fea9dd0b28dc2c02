use refusals::Refusal;

/// Why bytes have not the layout of a definition, with the offset.
#[derive(Clone, Copy, PartialEq, Eq, Debug)]
pub enum LayoutRefusal {
    /// A count, record, length or text is cut short by the end of the input.
    Cut(usize),
    /// A count is outside its limits, or the texts are not as many as links and activities.
    Count(usize),
    /// A text length is outside its limits.
    TextLength(usize),
    /// There are bytes after the last text.
    Extra(usize),
}

impl Refusal for LayoutRefusal {
    ghost use Rattle.layout.specs.Refusals.{cause_of, place_of};

    ghost cause_number = { cause_of };

    ghost place_number = { place_of };

    fn cause(&self) -> u16 {
        match self {
            LayoutRefusal::Cut(_) => 1,
            LayoutRefusal::Count(_) => 2,
            LayoutRefusal::TextLength(_) => 3,
            LayoutRefusal::Extra(_) => 4,
        }
    }

    fn place(&self) -> usize {
        match self {
            LayoutRefusal::Cut(at)
            | LayoutRefusal::Count(at)
            | LayoutRefusal::TextLength(at)
            | LayoutRefusal::Extra(at) => *at,
        }
    }
}
