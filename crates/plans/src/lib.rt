//! The plan of a flow: what its records and texts mean for evaluation.

#![tactic(auto)]
