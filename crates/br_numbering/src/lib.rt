//! Names and functions by number.
#![tactic(auto)]

mod index;
mod numbering;

pub use index::Index;
pub use numbering::Numbering;
