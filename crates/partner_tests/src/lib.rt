//! Tests of rule tables, retry and router, and one worked example as a theorem.

#![tactic(auto)]

ghost use Rattle.partner_tests.specs.Examples.{ThreeTriesOverSeven};

#[cfg(test)]
mod bytes;
#[cfg(test)]
mod expected;
#[cfg(test)]
mod pile;
#[cfg(test)]
mod retries;
#[cfg(test)]
mod routes;
#[cfg(test)]
mod table_answers;
#[cfg(test)]
mod table_refusals;

/// Three tries over 7 busy answers leave 2. The function computes nothing: its contract is what is proved.
pub fn three_tries_over_seven()
    ensures { ThreeTriesOverSeven }
{}
