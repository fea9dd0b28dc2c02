//! A partner for tests only: it lists the calls that it gets.

#![tactic(auto)]

pub mod listing;
