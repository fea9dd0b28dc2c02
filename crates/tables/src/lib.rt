//! Rule tables: partners whose answers are read from bytes.

#![tactic(auto)]

pub mod fit;
mod numbers;
pub mod outcome;
pub mod outputs;
mod records;
pub mod refusal;
pub mod row;
pub mod shown;
pub mod source;
pub mod table;
