//! Condition texts: each has one reading or a fault, and a reading has a value.

#![tactic(auto)]

pub mod ground;
pub mod parser;
pub mod text;
pub mod truth;
