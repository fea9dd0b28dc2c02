//! The values that flows work on: amounts, fields, containers, and the bytes of a case.

#![tactic(auto)]

pub mod amount;
pub mod case;
pub mod container;
pub mod equality;
pub mod field;
pub mod shown;
