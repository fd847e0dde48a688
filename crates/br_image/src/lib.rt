//! Images of compiled programs, and their text.
#![tactic(auto)]

mod faults;
mod images;
mod laws;
mod lines;
mod parsing;
mod printing;
mod reading;
mod scripts;
mod traces;

pub use faults::ImageFault;
pub use images::{Entry, Image};
pub use laws::{one_image_or_one_fault, two_images_have_two_texts};
pub use printing::{print, word_digits};
pub use reading::read;
pub use scripts::{
    InterpScript, RunScript, ScriptFault, one_interp_script_or_one_fault,
    one_run_script_or_one_fault, read_interp, read_run,
};
pub use traces::{TraceFault, one_trace_or_one_fault, read_trace};
