//! From flat programs to register form: names become registers, and words of a buffer where there
//! are more names than registers. Or each name becomes a register of its own, however many there
//! are, and words are passed as in register form: new names may then bring the program there. Here
//! stand the definition of the statements, the laws that they refine those that they come from and
//! how large they are, and the functions that make them.
#![tactic(auto)]

mod bodies;
mod forms;
mod laws;
mod moves;
mod passing;
mod place;
mod spilling;

pub use forms::is_in_register_form;
pub use laws::{
    layouts_fit, spilled_functions_keep_sizes, spilled_programs_are_as_lean,
    spilled_programs_are_in_register_form, spilled_programs_are_well_formed,
    spilled_programs_refine, spilled_programs_stay_lean, wide_layouts_fit,
};
pub use place::Place;
pub use spilling::{pass_in_registers, spill};
