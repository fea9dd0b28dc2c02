//! Flows: definitions that keep all the rules, read from their bytes.

#![tactic(auto)]

pub mod flow;
pub mod refusal;
pub mod shown;
