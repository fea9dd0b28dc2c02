//! Lists that lie in a fixed number of places.

#![tactic(auto)]

mod list;

pub use list::{BoundedList, Full};
