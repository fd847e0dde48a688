//! The machine that runs an image: its memory, one step of it, and many.
#![tactic(auto)]

mod arithmetic;
mod effects;
mod laws;
mod machine;
mod main_memory;
mod memory;
mod pages;
mod running;
mod start;
mod step;
mod stepped;
mod trace;
mod traps;

pub use laws::{
    junk_repeats_a_word, memories_of_the_data_region, register_0_reads_0, steps_add_up,
    steps_keep_the_code, steps_make_machines, steps_that_end_change_nothing,
};
pub use machine::Machine;
pub use running::{End, run};
pub use stepped::{Stepped, Trap};
pub use trace::Trace;
