//! Tests of flat programs, new names, register form, the compiler and the program of the firmware.
//! They stand in a crate of their own, since the proof of a crate with tests is made twice.
#![tactic(auto)]

#[cfg(test)]
mod compiling;
#[cfg(test)]
mod dead_code;
#[cfg(test)]
mod flat_programs;
#[cfg(test)]
mod immediates;
#[cfg(test)]
mod lightbulb;
#[cfg(test)]
mod lowering;
#[cfg(test)]
mod names;
#[cfg(test)]
mod spilling;
