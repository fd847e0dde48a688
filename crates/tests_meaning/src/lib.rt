//! Tests of programs that are run. They stand in a crate of their own, since the proof of a crate
//! with tests is made twice.
#![tactic(auto)]

#[cfg(test)]
mod running;
