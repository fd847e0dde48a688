//! Which names are live after each statement of a function of flat programs, as sets of bits.
#![tactic(auto)]

mod after;
mod bit_set;
mod laws;
mod summary;
mod table;
mod turn;
mod walk;
mod words;

pub use after::live_after;
pub use bit_set::BitSet;
pub use laws::names_are_below;
pub use summary::Summary;
pub use table::LiveTable;
pub use turn::Turn;
pub use walk::summary_of_all;

#[cfg(test)]
mod tests;
