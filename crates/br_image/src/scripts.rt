// Scripts: what a run of an image or of a source text is started with.

pub(crate) mod fields;
mod laws;
pub(crate) mod lines;
mod order;
pub(crate) mod parsing;
mod reading;
mod said;
mod values;

pub use laws::{one_interp_script_or_one_fault, one_run_script_or_one_fault};
pub use reading::{read_interp, read_run};
pub use values::{InterpScript, RunScript, ScriptFault};
