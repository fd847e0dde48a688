//! Words of 32 bits: the operations of the source language, the sizes of an access to memory, the
//! addresses of device words, and where the regions of memory stand.
#![tactic(auto)]

mod device;
mod fields;
mod laws;
mod layout;
mod operation;
mod size;

pub use device::device_word;
pub use fields::{bits, sext};
pub use laws::{
    operations_answer_words, shifts_are_rv32im, sign_extension_keeps_numbers,
    signed_words_are_twos_complement, zero_divisors_are_rv32im,
};
pub use layout::{DATA_BASE, Layout, STACK_BASE, STACK_END};
pub use operation::{BinOp, op};
pub use size::Size;

#[cfg(test)]
mod tests;
