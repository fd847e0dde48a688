// The instructions.

/// The instructions with an immediate of 20 bits for the upper bits of a word.
#[derive(Clone, Copy, Debug, PartialEq, Eq)]
pub enum UpperOp {
    Lui,
    Auipc,
}

/// The conditional branches.
#[derive(Clone, Copy, Debug, PartialEq, Eq)]
pub enum BranchOp {
    Beq,
    Bne,
    Blt,
    Bge,
    Bltu,
    Bgeu,
}

/// The loads.
#[derive(Clone, Copy, Debug, PartialEq, Eq)]
pub enum LoadOp {
    Lb,
    Lh,
    Lw,
    Lbu,
    Lhu,
}

/// The stores.
#[derive(Clone, Copy, Debug, PartialEq, Eq)]
pub enum StoreOp {
    Sb,
    Sh,
    Sw,
}

/// The operations on a register and an immediate, but for the shifts.
#[derive(Clone, Copy, Debug, PartialEq, Eq)]
pub enum ImmOp {
    Addi,
    Slti,
    Sltiu,
    Xori,
    Ori,
    Andi,
}

/// The shifts of a register by a constant amount.
#[derive(Clone, Copy, Debug, PartialEq, Eq)]
pub enum ShiftOp {
    Slli,
    Srli,
    Srai,
}

/// The operations on two registers, those of the M extension among them.
#[derive(Clone, Copy, Debug, PartialEq, Eq)]
pub enum RegOp {
    Add,
    Sub,
    Sll,
    Slt,
    Sltu,
    Xor,
    Srl,
    Sra,
    Or,
    And,
    Mul,
    Mulh,
    Mulhsu,
    Mulhu,
    Div,
    Divu,
    Rem,
    Remu,
}

/// An instruction. Its registers, each from 0 to 31, stand in the order rd, rs1, rs2, as far as it
/// has them; the immediate is last.
#[derive(Clone, Copy, Debug, PartialEq, Eq)]
pub enum Ins {
    /// rd, and the field of 20 bits as a number.
    Upper(UpperOp, u32, u32),
    /// JAL: rd, and an even offset from -2^20 to 2^20 - 2.
    Jal(u32, i32),
    /// JALR: rd, rs1, and an offset from -2048 to 2047.
    Jalr(u32, u32, i32),
    /// rs1, rs2, and an even offset from -4096 to 4094.
    Branch(BranchOp, u32, u32, i32),
    /// rd, rs1, and an offset from -2048 to 2047.
    Load(LoadOp, u32, u32, i32),
    /// rs1, rs2, and an offset from -2048 to 2047.
    Store(StoreOp, u32, u32, i32),
    /// rd, rs1, and a number from -2048 to 2047.
    Imm(ImmOp, u32, u32, i32),
    /// rd, rs1, and an amount from 0 to 31.
    Shift(ShiftOp, u32, u32, u32),
    /// rd, rs1, rs2.
    Reg(RegOp, u32, u32, u32),
    /// ECALL, which has no field.
    Ecall,
}
