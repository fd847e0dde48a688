//! The top call of the program: from the words of the command line and the bytes of the input to
//! the bytes of both outputs and a status.
#![tactic(auto)]

mod command;
mod delivery;
mod interps;
mod lines;
mod making;
mod refusal_lines;
mod runs;
mod top;
mod trouble;

pub use command::Command;
pub use lines::usage_line;
pub use top::tool;
pub use trouble::Reason;
