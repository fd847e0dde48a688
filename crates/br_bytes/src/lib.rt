//! Memories as finite maps of bytes, and what a run shows of itself: its events and its end.
#![tactic(auto)]

mod byte_map;
mod byte_range;
mod laws;
mod ranges;
mod run;

pub use byte_map::{ByteMap, Overlap};
pub use laws::{get_after_put, get_and_put_miss_alike, put_leaves_others};
pub use run::{Choice, Event, Outcome};
