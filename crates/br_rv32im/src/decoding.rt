// The instruction that a word is.

ghost use Rattle.std.specs.Prelude.{◌≡◌, IfSome};
ghost use Rattle.br_rv32im.specs.Encoding.{Fits};
ghost use Rattle.br_rv32im.specs.Row.{row_of};

use crate::fields::{b_immediate, fields_of, i_immediate, j_immediate, s_immediate};
use crate::instruction::{BranchOp, ImmOp, Ins, LoadOp, RegOp, ShiftOp, StoreOp, UpperOp};
use br_words::bits;

// The instructions by opcode, funct3 and funct7, as far as they have them: for each opcode a format
// and the codes of its instructions. A word `w` with the fields `f` and other codes is none.
macro_rules! decode_table {
    ($w:ident, $f:ident; $($opcode:literal => $format:ident ($($rows:tt)*),)*) => {
        match $f.opcode {
            $($opcode => decode_table!(@$format $w $f $($rows)*),)*
            _ => None,
        }
    };
    (@upper $w:ident $f:ident $op:ident) => {
        Some(Ins::Upper(UpperOp::$op, $f.rd, bits::<31, 12>($w)))
    };
    (@jal $w:ident $f:ident) => {
        Some(Ins::Jal($f.rd, j_immediate($w)))
    };
    (@jalr $w:ident $f:ident $funct3:literal) => {
        match $f.funct3 {
            $funct3 => Some(Ins::Jalr($f.rd, $f.rs1, i_immediate($w))),
            _ => None,
        }
    };
    (@branch $w:ident $f:ident $($funct3:literal $op:ident),*) => {
        match $f.funct3 {
            $($funct3 => Some(Ins::Branch(BranchOp::$op, $f.rs1, $f.rs2, b_immediate($w))),)*
            _ => None,
        }
    };
    (@load $w:ident $f:ident $($funct3:literal $op:ident),*) => {
        match $f.funct3 {
            $($funct3 => Some(Ins::Load(LoadOp::$op, $f.rd, $f.rs1, i_immediate($w))),)*
            _ => None,
        }
    };
    (@store $w:ident $f:ident $($funct3:literal $op:ident),*) => {
        match $f.funct3 {
            $($funct3 => Some(Ins::Store(StoreOp::$op, $f.rs1, $f.rs2, s_immediate($w))),)*
            _ => None,
        }
    };
    (@imm $w:ident $f:ident $($funct3:literal $op:ident),*;
        $($shift3:literal $shift7:literal $shift:ident),*) => {
        match ($f.funct3, $f.funct7) {
            $(($funct3, _) => Some(Ins::Imm(ImmOp::$op, $f.rd, $f.rs1, i_immediate($w))),)*
            $(($shift3, $shift7) => Some(Ins::Shift(ShiftOp::$shift, $f.rd, $f.rs1, $f.rs2)),)*
            _ => None,
        }
    };
    (@reg $w:ident $f:ident $($funct3:literal $funct7:literal $op:ident),*) => {
        match ($f.funct3, $f.funct7) {
            $(($funct3, $funct7) => Some(Ins::Reg(RegOp::$op, $f.rd, $f.rs1, $f.rs2)),)*
            _ => None,
        }
    };
    (@ecall $w:ident $f:ident $word:literal) => {
        match $w {
            $word => Some(Ins::Ecall),
            _ => None,
        }
    };
}

/// The instruction that a word is, or `None` where it is none of the 46 (RISC-V unprivileged
/// manual, "RV32/64G Instruction Set Listings"): FENCE and EBREAK among others.
#[tactic(auto, unfolding(crate::specs::Row::row_of))]
pub fn decode(w: u32) -> Option<Ins>
    ensures row { result ≡ row_of w }
    ensures in_range { IfSome result Fits }
{
    let f = fields_of(w);
    decode_table! { w, f;
        0b0110111 => upper(Lui),
        0b0010111 => upper(Auipc),
        0b1101111 => jal(),
        0b1100111 => jalr(0b000),
        0b1100011 => branch(0b000 Beq, 0b001 Bne, 0b100 Blt, 0b101 Bge, 0b110 Bltu, 0b111 Bgeu),
        0b0000011 => load(0b000 Lb, 0b001 Lh, 0b010 Lw, 0b100 Lbu, 0b101 Lhu),
        0b0100011 => store(0b000 Sb, 0b001 Sh, 0b010 Sw),
        0b0010011 => imm(
            0b000 Addi, 0b010 Slti, 0b011 Sltiu, 0b100 Xori, 0b110 Ori, 0b111 Andi;
            0b001 0b0000000 Slli, 0b101 0b0000000 Srli, 0b101 0b0100000 Srai
        ),
        0b0110011 => reg(
            0b000 0b0000000 Add, 0b000 0b0100000 Sub, 0b001 0b0000000 Sll, 0b010 0b0000000 Slt,
            0b011 0b0000000 Sltu, 0b100 0b0000000 Xor, 0b101 0b0000000 Srl, 0b101 0b0100000 Sra,
            0b110 0b0000000 Or, 0b111 0b0000000 And, 0b000 0b0000001 Mul, 0b001 0b0000001 Mulh,
            0b010 0b0000001 Mulhsu, 0b011 0b0000001 Mulhu, 0b100 0b0000001 Div,
            0b101 0b0000001 Divu,
            0b110 0b0000001 Rem, 0b111 0b0000001 Remu
        ),
        0b1110011 => ecall(0x00000073),
    }
}
