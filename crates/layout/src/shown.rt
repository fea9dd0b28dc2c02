//! Refusals in plain words, beside their numbers and places.

use crate::refusal::LayoutRefusal;
use std::fmt;

impl fmt::Display for LayoutRefusal {
    fn fmt<W: fmt::Write>(&self, f: &mut fmt::Formatter<W>) -> fmt::Result {
        match self {
            LayoutRefusal::Cut(at) => write!(
                f,
                "the input ends inside the item that begins at byte {at}"
            ),
            LayoutRefusal::Count(at) => write!(f, "the count at byte {at} is outside its limits"),
            LayoutRefusal::TextLength(at) => write!(
                f,
                "the text length at byte {at} is not 1 to 60"
            ),
            LayoutRefusal::Extra(at) => write!(f, "bytes follow the last text, from byte {at} on"),
        }
    }
}
