//! The listing of an image: its words with their addresses and instructions, and the names of the
//! functions where they begin.
#![tactic(auto)]

mod labels;
mod lines;

pub use lines::list;
