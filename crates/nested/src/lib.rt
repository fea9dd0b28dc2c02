//! A flow as a partner: nested in an activity of another flow.

#![tactic(auto)]

pub mod nested;
pub mod refusal;
