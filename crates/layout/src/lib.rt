//! The layout of a definition: reading its bytes into a draft, or refusing them with a cause and a place.

#![tactic(auto)]

mod draft;
mod reader;
mod refusal;
mod sections;
mod shown;

pub use draft::Draft;
pub use refusal::LayoutRefusal;
