//! Partners: what carries out the operations of a flow, and layers over partners.

#![tactic(auto)]

pub mod fault;
pub mod partner;
pub mod refusal;
pub mod retry;
pub mod router;
pub mod shown;
