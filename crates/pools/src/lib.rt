//! A pool over lent places, for any kind of element that has an order.

#![tactic(auto)]

mod held;
mod kinds;
mod order;
mod refusal;
mod takes;
#[cfg(test)]
mod tests;

pub use held::Pool;
pub use kinds::{ActivityNumber, WorkItem};
pub use order::{Ordered, TellsApart};
pub use refusal::PoolRefusal;
pub use takes::{one_least, taken_come_rising, takes_lose_nothing};
