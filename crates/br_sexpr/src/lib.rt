//! Source texts as trees of names, numbers and lists, and the one text that trees are printed as.
#![tactic(auto)]

mod laws;
mod number;
mod piece;
mod printing;
mod reading;
mod tree;

pub use laws::{lowest_offset, one_answer, one_layout, only_gaps_between};
pub use printing::print;
pub use reading::{MOST_BYTES, read};
pub use tree::{TextFault, Tree};
