//! Refusals in plain words, beside their numbers and places.

use crate::refusal::RuleRefusal;
use std::fmt;

impl fmt::Display for RuleRefusal {
    fn fmt<W: fmt::Write>(&self, f: &mut fmt::Formatter<W>) -> fmt::Result {
        match self {
            RuleRefusal::Flags(i) => write!(f, "the flags of activity {i} are not 0"),
            RuleRefusal::NoEnd(i) => write!(f, "an end of link {i} is no activity"),
            RuleRefusal::Twice(i) => write!(
                f,
                "an earlier link has the source and target of link {i}"
            ),
            RuleRefusal::Cycle(a) => {
                write!(
                    f,
                    "the links form a cycle; the least activity on one is {a}"
                )
            }
            RuleRefusal::BadConnector(i) => {
                write!(
                    f,
                    "connector {i} breaks its rules, or names no activity or field"
                )
            }
            RuleRefusal::NoPath(i) => write!(
                f,
                "the source of connector {i} does not reach its target"
            ),
            RuleRefusal::BadText(i, place) => {
                write!(f, "text {i} is no condition; its fault is at place {place}")
            }
        }
    }
}
