//! The texts that the commands `run`, `interp` and `judge` answer: what a machine or a program of
//! the source language shows of a run, and a verdict on events.
#![tactic(auto)]

mod entries;
mod interps;
mod lines;
mod ranges;
mod runs;
mod verdicts;

pub use entries::entry_named;
pub use interps::interp_text;
pub use runs::run_text;
pub use verdicts::verdict;
