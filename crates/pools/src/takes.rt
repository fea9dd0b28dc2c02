ghost use Rattle.pools.specs.Takes.{TakenComeRising, TakesLoseNothing, OneLeast};

use crate::order::{Ordered, TellsApart};

/// Elements taken out of a pool, with none added between, come in rising order.
#[tactic(auto, using(crate::proofs::Rising::taken_come_rising))]
pub fn taken_come_rising<T: Ordered>()
    ensures { TakenComeRising T.before }
{}

/// What such takes give, followed by what they leave, has exactly the elements that the pool had.
#[tactic(auto, using(crate::proofs::Rising::takes_lose_nothing))]
pub fn takes_lose_nothing<T: Ordered>()
    ensures { TakesLoseNothing T.before }
{}

/// Where the order tells any two elements apart, what a take gives is determined by the pool.
pub fn one_least<T: TellsApart>()
    ensures { OneLeast T.before }
{}
