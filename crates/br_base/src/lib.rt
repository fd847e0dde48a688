//! What every other crate stands on: the ends that bytes come from and go to, the ways a call can
//! fail, statuses of the program, and names.
#![tactic(auto)]

mod failure;
mod memory;
mod name;
mod sink;
mod source;
mod status;
mod sure;
mod system;
#[cfg(test)]
mod tests;

pub use failure::{Failed, NoMemory, OrMemory};
pub use memory::{MemSink, MemSource};
pub use name::{Name, continues_name, is_name, starts_name};
pub use sink::{Sink, write_all};
pub use source::{ReadEnd, Source, read_all};
pub use status::Status;
pub use sure::{SureSink, SureSource};
pub use system::{StdSink, StdSource};
