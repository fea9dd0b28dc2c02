//! Sets and pairs of activities, and the table of what each reaches.
// Links and a count come apart, as a caller has them: a struct of both would ask each caller to make one.

#![tactic(auto)]

mod closure;
mod pairs;
mod sets;

pub use closure::Reach;
pub use pairs::ActivityPairs;
pub use sets::ActivitySet;
