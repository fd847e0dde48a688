//! Flat programs: functions whose names are numbers, and whose statements hold no
//! expressions. Their meaning, what it means that one program refines another,
//! which names are live where, and sizes.
//!
//! The laws of these definitions are contracts of functions that do nothing: where such a function
//! is called, its contract is among the facts there. What a pass shows of its answer goes by pieces
//! that each stand as a lemma: `proofs/Matches` for the forms of runs over any variables,
//! `proofs/Renamed` for one statement, `proofs/Skips` for one that the answer leaves out,
//! `proofs/Uniform` for functions, and `refines-from_entries` of `proofs/Programs`, which makes
//! Refines of what holds of each function. `proofs/Rows` computes small rows of the definitions,
//! each with the answer that is wanted.
#![tactic(auto)]

mod forms;
mod laws;
mod program;
mod run_laws;

pub use forms::{constant_fits, well_formed};
pub use laws::{
    forgetting_refines, lists_have_two_parts, liveness_is_least, loops_take_one_turn,
    refines_composes, renamed_programs_refine, runs_agree_on_live_names,
};
pub use program::{Cond, FlatFunc, FlatProgram, Operand, Proposal, Rel, Stmt};
pub use run_laws::{bounds_do_not_show, longer_lists_stay, more_fuel_goes_on, runs_only_take};
