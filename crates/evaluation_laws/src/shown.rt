use crate::Outcome;
use std::fmt;

/// In plain words, with the output or the fault's code.
impl fmt::Display for Outcome {
    fn fmt<W: fmt::Write>(&self, f: &mut fmt::Formatter<W>) -> fmt::Result {
        match self {
            Outcome::Skipped => write!(f, "skipped"),
            Outcome::Completed(output) => write!(f, "completed {output}"),
            Outcome::Faulted(fault) => write!(f, "faulted {fault}"),
        }
    }
}
