//! How many bytes of stack the functions of a flat program in register form need.
#![tactic(auto)]

mod calls;
mod laws;
mod names;
mod nest;
mod stack;

pub use laws::{needs_add_up, needs_are_bounded};
pub use stack::needs;

#[cfg(test)]
mod tests;
