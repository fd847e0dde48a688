//! From flat programs in register form to images: the code of flat programs, as items in order, the
//! law that the machine, running them, shows the calls of the program, and what writes them.
//!
//! Code is written in two passes over each function. The first finds the lengths of the parts of
//! conditionals and loops, which the jumps over them need, and keeps them in the order in which the
//! second pass, which writes, takes them. The first pass is made twice: over all functions, so that
//! the place of each is known before a call of it is written, and again before a function is
//! written, so that the lengths of one function are kept at a time.
#![tactic(auto)]

mod buffer;
mod called;
mod changing;
mod code;
mod constant_tables;
mod emission;
mod flow;
mod forgotten;
mod framing;
mod functions;
mod jumps;
mod laws;
mod linking;
mod measuring;
mod numbers;
mod places;
mod programs;
mod registers;
mod room;
mod sets;
mod straight;
mod targets;
mod writing;

pub use buffer::CodeBuffer;
pub use emission::{emit, emit_into};
pub use laws::{called_entries_show_calls, code_shows_its_program, direct_entries_show_calls};

#[cfg(test)]
mod tests;
