//! Tests of texts, trees, programs and their names. They stand in a crate of their own, since the
//! proof of a crate with tests is made twice.
#![tactic(auto)]

#[cfg(test)]
mod measure;
#[cfg(test)]
mod numbering;
#[cfg(test)]
mod printing;
#[cfg(test)]
mod reading;
#[cfg(test)]
mod syntax;
