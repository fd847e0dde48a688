//! Tests of memories, instructions and the machine. They stand in a crate of their own, since the
//! proof of a crate with tests is made twice.
#![tactic(auto)]

#[cfg(test)]
mod bytes;
#[cfg(test)]
mod instructions;
#[cfg(test)]
mod machine;
