//! The tokens of condition texts, and what each says.

#![tactic(auto)]

pub mod class;
pub mod fault;
pub mod lexer;
pub mod symbol;
pub mod token;
