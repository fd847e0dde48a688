//! Tests of the top call. They stand in a crate of their own, since the proof
//! of a crate with tests is made twice.
#![tactic(auto)]

#[cfg(test)]
mod calling;
#[cfg(test)]
mod scripts;
#[cfg(test)]
mod top;
#[cfg(test)]
mod traces;
