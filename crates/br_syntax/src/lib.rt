//! Programs of the source language, and the trees that they are written as.
#![tactic(auto)]

mod command;
mod expression;
mod faults;
mod function;
mod laws;
mod part;
mod program;
mod shaped;
mod word;
mod write_cmd;
mod write_expr;
mod write_program;

pub use faults::ShapeFault;
pub use function::from_tree;
pub use laws::{offsets_left_out, one_meaning};
pub use program::{Cmd, Expr, Func, Program};
pub use write_program::to_tree;
