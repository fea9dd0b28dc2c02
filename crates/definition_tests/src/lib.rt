//! Definitions with the flow that each gives, or with the cause and place of its refusal.

#![tactic(auto)]

#[cfg(test)]
mod bytes;
#[cfg(test)]
mod expected;
#[cfg(test)]
mod largest;
#[cfg(test)]
mod layout_faults;
#[cfg(test)]
mod loan;
#[cfg(test)]
mod order_of_checks;
#[cfg(test)]
mod rule_faults;
#[cfg(test)]
mod sound;
#[cfg(test)]
mod text_faults;
