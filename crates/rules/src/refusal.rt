ghost use Rattle.rules.specs.Rules.{cause_of, place_of};

use refusals::Refusal;

/// Which rule a definition breaks first, and at which item.
#[derive(Clone, Copy, PartialEq, Eq, Debug)]
pub enum RuleRefusal {
    /// The flags of an activity are not 0.
    Flags(usize),
    /// An end of a link is no activity.
    NoEnd(usize),
    /// An earlier link has the same source and target.
    Twice(usize),
    /// The least activity on a cycle.
    Cycle(usize),
    /// A connector breaks its rules, or names no activity or field.
    BadConnector(usize),
    /// The source of a connector does not reach its target.
    NoPath(usize),
    /// A text has its fault at a place.
    BadText(u8, u8),
}

impl Refusal for RuleRefusal {
    ghost cause_number = { cause_of };

    ghost place_number = { place_of };

    fn cause(&self) -> u16 {
        match self {
            RuleRefusal::Flags(_) => 5,
            RuleRefusal::NoEnd(_) => 6,
            RuleRefusal::Twice(_) => 7,
            RuleRefusal::Cycle(_) => 8,
            RuleRefusal::BadConnector(_) => 9,
            RuleRefusal::NoPath(_) => 10,
            RuleRefusal::BadText(_, _) => 11,
        }
    }

    /// The number of the activity, link or connector; of a text, its number times 256 plus the place in it.
    fn place(&self) -> usize {
        match self {
            RuleRefusal::Flags(i)
            | RuleRefusal::NoEnd(i)
            | RuleRefusal::Twice(i)
            | RuleRefusal::Cycle(i)
            | RuleRefusal::BadConnector(i)
            | RuleRefusal::NoPath(i) => *i,
            RuleRefusal::BadText(i, place) => usize::from(*i) * 256 + usize::from(*place),
        }
    }
}
