//! Tests of flattening: texts and their flat statements. They stand in a crate of their own, since
//! the proof of a crate with tests is made twice.
#![tactic(auto)]

#[cfg(test)]
mod examples;
#[cfg(test)]
mod held;
#[cfg(test)]
mod shown;
#[cfg(test)]
mod statements;
