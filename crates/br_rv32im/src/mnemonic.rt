// The mnemonics.

ghost use Rattle.std.specs.Prelude.{Some};

use crate::instruction::{BranchOp, ImmOp, LoadOp, RegOp, ShiftOp, StoreOp, UpperOp};
use std::fmt;

impl fmt::Display for UpperOp {
    ghost use Rattle.br_rv32im.specs.Listing.{mnemonic_of_upper};

    ghost output = { λ o. Some (mnemonic_of_upper o) };

    fn fmt<W: fmt::Write>(&self, f: &mut fmt::Formatter<W>) -> fmt::Result {
        f.write_str(match self {
            UpperOp::Lui => "lui",
            UpperOp::Auipc => "auipc",
        })
    }
}

impl fmt::Display for BranchOp {
    ghost use Rattle.br_rv32im.specs.Listing.{mnemonic_of_branch};

    ghost output = { λ o. Some (mnemonic_of_branch o) };

    fn fmt<W: fmt::Write>(&self, f: &mut fmt::Formatter<W>) -> fmt::Result {
        f.write_str(match self {
            BranchOp::Beq => "beq",
            BranchOp::Bne => "bne",
            BranchOp::Blt => "blt",
            BranchOp::Bge => "bge",
            BranchOp::Bltu => "bltu",
            BranchOp::Bgeu => "bgeu",
        })
    }
}

impl fmt::Display for LoadOp {
    ghost use Rattle.br_rv32im.specs.Listing.{mnemonic_of_load};

    ghost output = { λ o. Some (mnemonic_of_load o) };

    fn fmt<W: fmt::Write>(&self, f: &mut fmt::Formatter<W>) -> fmt::Result {
        f.write_str(match self {
            LoadOp::Lb => "lb",
            LoadOp::Lh => "lh",
            LoadOp::Lw => "lw",
            LoadOp::Lbu => "lbu",
            LoadOp::Lhu => "lhu",
        })
    }
}

impl fmt::Display for StoreOp {
    ghost use Rattle.br_rv32im.specs.Listing.{mnemonic_of_store};

    ghost output = { λ o. Some (mnemonic_of_store o) };

    fn fmt<W: fmt::Write>(&self, f: &mut fmt::Formatter<W>) -> fmt::Result {
        f.write_str(match self {
            StoreOp::Sb => "sb",
            StoreOp::Sh => "sh",
            StoreOp::Sw => "sw",
        })
    }
}

impl fmt::Display for ImmOp {
    ghost use Rattle.br_rv32im.specs.Listing.{mnemonic_of_imm};

    ghost output = { λ o. Some (mnemonic_of_imm o) };

    fn fmt<W: fmt::Write>(&self, f: &mut fmt::Formatter<W>) -> fmt::Result {
        f.write_str(match self {
            ImmOp::Addi => "addi",
            ImmOp::Slti => "slti",
            ImmOp::Sltiu => "sltiu",
            ImmOp::Xori => "xori",
            ImmOp::Ori => "ori",
            ImmOp::Andi => "andi",
        })
    }
}

impl fmt::Display for ShiftOp {
    ghost use Rattle.br_rv32im.specs.Listing.{mnemonic_of_shift};

    ghost output = { λ o. Some (mnemonic_of_shift o) };

    fn fmt<W: fmt::Write>(&self, f: &mut fmt::Formatter<W>) -> fmt::Result {
        f.write_str(match self {
            ShiftOp::Slli => "slli",
            ShiftOp::Srli => "srli",
            ShiftOp::Srai => "srai",
        })
    }
}

impl fmt::Display for RegOp {
    ghost use Rattle.br_rv32im.specs.Listing.{mnemonic_of_reg};

    ghost output = { λ o. Some (mnemonic_of_reg o) };

    fn fmt<W: fmt::Write>(&self, f: &mut fmt::Formatter<W>) -> fmt::Result {
        f.write_str(match self {
            RegOp::Add => "add",
            RegOp::Sub => "sub",
            RegOp::Sll => "sll",
            RegOp::Slt => "slt",
            RegOp::Sltu => "sltu",
            RegOp::Xor => "xor",
            RegOp::Srl => "srl",
            RegOp::Sra => "sra",
            RegOp::Or => "or",
            RegOp::And => "and",
            RegOp::Mul => "mul",
            RegOp::Mulh => "mulh",
            RegOp::Mulhsu => "mulhsu",
            RegOp::Mulhu => "mulhu",
            RegOp::Div => "div",
            RegOp::Divu => "divu",
            RegOp::Rem => "rem",
            RegOp::Remu => "remu",
        })
    }
}
