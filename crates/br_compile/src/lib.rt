//! From source texts to images. `lower` makes a flat program in register form of a text, and
//! `compile` writes its code. Both are compositions of the passes below, by their contracts.
#![tactic(auto)]

mod compiling;
mod laws;
mod lowering;
mod refusal;

pub use compiling::compile;
pub use laws::{first_steps_show_a_run, texts_are_accepted_or_at_fault};
pub use lowering::{Lowered, lower};
pub use refusal::Refusal;
