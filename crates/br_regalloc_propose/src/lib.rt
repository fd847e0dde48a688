//! Which names of a function could share a number, and which registers the names of a program could
//! have. Nothing is promised of a proposal: who takes it has to see that it may.
#![tactic(auto)]

mod callees;
mod choosing;
mod colors;
mod flow;
mod name_set;
mod points;
mod proposing;
mod registers;
mod spans;
mod weights;

pub use proposing::propose;
pub use registers::propose_registers;
