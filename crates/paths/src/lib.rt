//! Paths of links, the least activity on a cycle, and the order of the activities by rank.
// Links and a count come apart, as a caller has them: a struct of both would ask each caller to make one.

#![tactic(auto)]

mod cycles;
mod marks;
mod order;
mod ranks;
mod reach;

pub use cycles::least_on_cycle;
pub use order::Ranking;
pub use ranks::rank;
pub use reach::reaches;
