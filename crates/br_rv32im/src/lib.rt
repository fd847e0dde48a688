//! The instructions of RV32IM that a compiled program uses: the word that each is, the instruction
//! that each word is, and its text in a listing. From the RISC-V unprivileged manual, RV32I base
//! integer instruction set and M extension.
#![tactic(auto)]

mod decoding;
mod encoding;
mod fields;
mod format;
mod instruction;
mod laws;
mod mnemonic;
mod operand;
mod range;
mod text;

pub use decoding::decode;
pub use encoding::{encode, fits};
pub use instruction::{BranchOp, ImmOp, Ins, LoadOp, RegOp, ShiftOp, StoreOp, UpperOp};
pub use laws::instructions_and_words_match;
pub use text::listing;
