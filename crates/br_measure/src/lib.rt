//! How large programs are, and which functions call which.
#![tactic(auto)]

mod bulk;
mod calls;
mod checking;
mod faults;
mod laws;
mod lowest;
mod measures;
mod names;
mod nested;
mod paths;
mod phases;

pub use bulk::bulk_of;
pub use checking::{Checked, check};
pub use faults::NameFault;
pub use laws::{
    faults_are_unique, measures_add_up, programs_are_decided, sound_programs_have_no_fault,
};
