//! Simpler forms of programs of the source language that mean the same: operations on literals are
//! computed, products, quotients and remainders by powers of two are shifts and `and`, tests of
//! whether a word is 0 are tests of that word, and parts that are never run are left out.
#![tactic(auto)]

mod commands;
mod conditions;
mod expressions;
mod laws;
mod operations;
mod program;

pub use conditions::asks_zero;
pub use laws::{
    simple_programs_are_no_larger, simple_programs_keep_rules, simple_programs_mean_the_same,
};
pub use program::simple_program;
