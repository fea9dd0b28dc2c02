//! Paths of links, cycles and the rank order, with what is true of them: definitions and proofs alone.

#![tactic(auto)]
