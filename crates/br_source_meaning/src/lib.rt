//! What programs of the source language mean.
#![tactic(auto)]

mod commands;
mod functions;
mod held;
mod interp;
mod laws;
mod numbered;
mod numbered_program;
mod numbering;
mod pending;
mod running;
mod values;
mod variable_names;
mod variables;

pub use interp::{Finished, Interp};
pub use laws::{bounds_do_not_show, longer_lists_stay, more_fuel_goes_on, runs_only_take};
