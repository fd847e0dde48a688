//! Removal of statements that only write a name whose word is never read.
#![tactic(auto)]

mod copies;
mod dead;
mod needed;
mod program;
mod sweep;
mod unneeded;

pub use program::remove_dead;

#[cfg(test)]
mod tests;
