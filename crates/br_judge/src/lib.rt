//! The trace language of the firmware, and the judge that says where a trace departs from it.
#![tactic(auto)]

mod exchange;
mod judge;
mod laws;
mod place;
mod word;

pub use judge::Judge;
pub use laws::{events_lead_on, places_stand};
