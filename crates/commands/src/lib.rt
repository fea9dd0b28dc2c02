//! What the programs share: how they start, and the calls that they both have.

#![tactic(auto)]

pub mod cases;
pub mod files;
pub mod ordering;
pub mod showing;
pub mod starting;
pub mod weighing;
