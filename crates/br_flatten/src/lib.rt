//! From the source language to flat programs: expressions become statements, and variables and
//! functions become numbers. Here stand the definition of the flat statements of a program, the law
//! that they refine it, and the function that makes them.
#![tactic(auto)]

mod compare;
mod constants;
mod flattening;
mod held;
mod highest;
mod laws;
mod operands;
mod places;
mod scope;
mod statements;
mod units;
mod uses;

pub use flattening::flatten;
pub use laws::flat_programs_refine;
