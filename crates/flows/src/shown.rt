//! Refusals in plain words, beside their numbers and places.

use crate::refusal::DefinitionRefusal;
use std::fmt;

impl fmt::Display for DefinitionRefusal {
    fn fmt<W: fmt::Write>(&self, f: &mut fmt::Formatter<W>) -> fmt::Result {
        match self {
            DefinitionRefusal::Layout(refusal) => write!(f, "{refusal}"),
            DefinitionRefusal::Rule(refusal) => write!(f, "{refusal}"),
        }
    }
}
