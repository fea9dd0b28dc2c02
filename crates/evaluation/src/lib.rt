//! Evaluation: what a flow comes to on a case, with a partner.

#![tactic(auto)]

pub mod evaluated;
pub mod evaluating;
mod outcomes;
