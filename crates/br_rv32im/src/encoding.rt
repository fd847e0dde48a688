// The word that an instruction is, and the instructions that are words.

ghost use Rattle.std.specs.Prelude.{◌≡◌, ◌↔◌, IsTrue};
ghost use Rattle.br_rv32im.specs.Encoding.{Fits, word_of};

use crate::format::{
    branch_word, immediate_word, jump_word, register_word, store_word, upper_word,
};
use crate::instruction::{BranchOp, ImmOp, Ins, LoadOp, RegOp, ShiftOp, StoreOp, UpperOp};
use crate::range::{is_even, is_register, is_signed};

// The instructions with their opcode, funct3 and funct7, as far as they have them: for each format
// the codes of its instructions.
macro_rules! encode_table {
    ($i:ident;
        upper($($upper:ident $upper_opcode:literal),*),
        jal($jal:literal),
        jalr($jalr:literal $jalr3:literal),
        branch($branch:literal: $($branch_op:ident $branch3:literal),*),
        load($load:literal: $($load_op:ident $load3:literal),*),
        store($store:literal: $($store_op:ident $store3:literal),*),
        imm($imm:literal: $($imm_op:ident $imm3:literal),*),
        shift($shift:literal: $($shift_op:ident $shift3:literal $shift7:literal),*),
        reg($reg:literal: $($reg_op:ident $reg3:literal $reg7:literal),*),
        ecall($ecall:literal),
    ) => {
        match $i {
            $(Ins::Upper(UpperOp::$upper, rd, imm) => upper_word($upper_opcode, rd, imm),)*
            Ins::Jal(rd, imm) => jump_word($jal, rd, imm),
            Ins::Jalr(rd, rs1, imm) => immediate_word($jalr, $jalr3, rd, rs1, imm),
            $(Ins::Branch(BranchOp::$branch_op, rs1, rs2, imm) => {
                branch_word($branch, $branch3, rs1, rs2, imm)
            })*
            $(Ins::Load(LoadOp::$load_op, rd, rs1, imm) =>
                immediate_word($load, $load3, rd, rs1, imm),)*
            $(Ins::Store(StoreOp::$store_op, rs1, rs2, imm) =>
                store_word($store, $store3, rs1, rs2, imm),)*
            $(Ins::Imm(ImmOp::$imm_op, rd, rs1, imm) => immediate_word($imm, $imm3, rd, rs1, imm),)*
            $(Ins::Shift(ShiftOp::$shift_op, rd, rs1, amount) => {
                register_word($shift, $shift3, $shift7, rd, rs1, amount)
            })*
            $(Ins::Reg(RegOp::$reg_op, rd, rs1, rs2) => {
                register_word($reg, $reg3, $reg7, rd, rs1, rs2)
            })*
            Ins::Ecall => $ecall,
        }
    };
}

/// The word that an instruction is (RISC-V unprivileged manual, "RV32/64G Instruction Set
/// Listings"), for an instruction that `fits`. By the law `instructions_and_words_match`, `decode`
/// gives `i` for this word and for no other.
#[tactic(auto, unfolding(crate::specs::Encoding::word_of))]
pub fn encode(i: Ins) -> u32
    requires { Fits i }
    ensures { result ≡ word_of i }
{
    encode_table! { i;
        upper(Lui 0b0110111, Auipc 0b0010111),
        jal(0b1101111),
        jalr(0b1100111 0b000),
        branch(0b1100011: Beq 0b000, Bne 0b001, Blt 0b100, Bge 0b101, Bltu 0b110, Bgeu 0b111),
        load(0b0000011: Lb 0b000, Lh 0b001, Lw 0b010, Lbu 0b100, Lhu 0b101),
        store(0b0100011: Sb 0b000, Sh 0b001, Sw 0b010),
        imm(0b0010011: Addi 0b000, Slti 0b010, Sltiu 0b011, Xori 0b100, Ori 0b110, Andi 0b111),
        shift(0b0010011: Slli 0b001 0b0000000, Srli 0b101 0b0000000, Srai 0b101 0b0100000),
        reg(0b0110011:
            Add 0b000 0b0000000, Sub 0b000 0b0100000, Sll 0b001 0b0000000, Slt 0b010 0b0000000,
            Sltu 0b011 0b0000000, Xor 0b100 0b0000000, Srl 0b101 0b0000000, Sra 0b101 0b0100000,
            Or 0b110 0b0000000, And 0b111 0b0000000, Mul 0b000 0b0000001, Mulh 0b001 0b0000001,
            Mulhsu 0b010 0b0000001, Mulhu 0b011 0b0000001, Div 0b100 0b0000001,
            Divu 0b101 0b0000001, Rem 0b110 0b0000001, Remu 0b111 0b0000001),
        ecall(0x00000073),
    }
}

/// Whether each register of an instruction is below 32 and its immediate is one that its format
/// can hold: of I and S from -2048 to 2047, of B even from -4096 to 4094, of U below 2^20, of J
/// even from -2^20 to 2^20 - 2, of a shift below 32.
pub fn fits(i: Ins) -> bool
    ensures { IsTrue result ↔ Fits i }
{
    match i {
        Ins::Upper(_, rd, imm) => is_register(rd) && imm < 1 << 20,
        Ins::Jal(rd, imm) => is_register(rd) && is_signed::<21>(imm) && is_even(imm),
        Ins::Jalr(rd, rs1, imm) => is_register(rd) && is_register(rs1) && is_signed::<12>(imm),
        Ins::Branch(_, rs1, rs2, imm) => {
            is_register(rs1) && is_register(rs2) && is_signed::<13>(imm) && is_even(imm)
        }
        Ins::Load(_, rd, rs1, imm) => is_register(rd) && is_register(rs1) && is_signed::<12>(imm),
        Ins::Store(_, rs1, rs2, imm) => is_register(rs1)
            && is_register(rs2)
            && is_signed::<12>(imm),
        Ins::Imm(_, rd, rs1, imm) => is_register(rd) && is_register(rs1) && is_signed::<12>(imm),
        Ins::Shift(_, rd, rs1, amount) => is_register(rd) && is_register(rs1) && amount < 32,
        Ins::Reg(_, rd, rs1, rs2) => is_register(rd) && is_register(rs1) && is_register(rs2),
        Ins::Ecall => true,
    }
}
