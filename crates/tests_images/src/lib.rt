//! Tests of the texts of images, scripts and traces, of listings, and of the judge. They stand in a
//! crate of their own, since the proof of a crate with tests is made twice.
#![tactic(auto)]

#[cfg(test)]
mod images;
#[cfg(test)]
mod judge;
#[cfg(test)]
mod listing;
#[cfg(test)]
mod scripts;
#[cfg(test)]
mod traces;
