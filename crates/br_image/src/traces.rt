// Trace texts: what a run showed of itself.

mod laws;
pub(crate) mod lines;
mod parsing;
mod reading;
mod shown;

pub use laws::one_trace_or_one_fault;
pub use reading::{TraceFault, read_trace};
