//! Constants in place of names that literals set. Where the second operand of an operation is a
//! name that a literal set before, with nothing between that may change it, and the word fits the
//! operation as a constant, the constant takes the name's place.
#![tactic(auto)]

mod bodies;
mod laws;
mod literals;
mod program;

pub use program::use_immediates;
