//! New names for the names of functions: whether a function may take them, and programs whose
//! functions took those that they may take.
#![tactic(auto)]

mod apart;
mod assigning;
mod before;
mod checker;
mod count;
mod names_for;
mod renamed;
mod walk;

pub use assigning::assign;
pub use checker::accepts;
pub use count::{has_few_statements, have_few_statements};
