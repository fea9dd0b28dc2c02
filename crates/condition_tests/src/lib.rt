//! Condition texts with the value, or the place of the fault, that each must have.

#![tactic(auto)]

#[cfg(test)]
mod expected;
#[cfg(test)]
mod join_texts;
#[cfg(test)]
mod limits;
#[cfg(test)]
mod transition_faults;
#[cfg(test)]
mod transition_values;
