// The code of statements without parts.

ghost use Rattle.std.specs.Prelude.{◌≡◌, ◌<◌, ◌≤◌, IsTrue, length, negsuc, ◌≤ℤ◌};
ghost use Rattle.br_flatimp.specs.Parts.{operand_names};
ghost use Rattle.br_flatimp.specs.WellFormed.{are_registers, fits_operation, operand_fits};
ghost use Rattle.br_emit.specs.Code.{AllFit, low_part, high_part, is_short, constant_items};
ghost use Rattle.br_emit.specs.Code.{copy_items, opposite, amount, by_name_items};
ghost use Rattle.br_emit.specs.Code.{by_constant_items, op_items, load_op, store_op, place_items};
ghost use Rattle.br_emit.specs.Buffer.{appended};

use crate::code::Code;
use br_flatimp::Operand;
use br_rv32im::{ImmOp, Ins, LoadOp, RegOp, ShiftOp, StoreOp, UpperOp};
use br_words::{BinOp, Size};

// The stack pointer (RISC-V calling conventions, integer register convention).
const STACK_POINTER: u32 = 2;

/// The signed number that the low 12 bits of a word are.
pub fn low_part(n: u32) -> i32
    ensures { result ≡ low_part n }
{
    let low = (n % 4096) as i32;
    if low < 2048 { low } else { low - 4096 }
}

/// What is to be loaded above the low part of a word, which counts as a signed number.
pub fn high_part(n: u32) -> u32
    ensures { result ≡ high_part n }
{
    ((n as u64 + 2048) / 4096) as u32
}

/// Whether an immediate of 12 bits says the word.
pub fn is_short(n: u32) -> bool
    ensures { result ≡ is_short n }
{
    n < 2048 || 4_294_965_248 <= n
}

/// Sets a register to a word.
pub fn constant(code: &mut Code, r: u32, n: u32)
    requires register { r < 32 }
    requires room { length (constant_items r n) ≤ code.old.room }
    ensures code { code.new ≡ appended code.old (constant_items r n) }
    ensures fit { AllFit (constant_items r n) }
{
    if is_short(n) {
        code.put(Ins::Imm(ImmOp::Addi, r, 0, low_part(n)));
    } else if n % 4096 == 0 {
        code.put(Ins::Upper(UpperOp::Lui, r, high_part(n)));
    } else {
        code.put(Ins::Upper(UpperOp::Lui, r, high_part(n)));
        code.put(Ins::Imm(ImmOp::Addi, r, r, low_part(n)));
    }
}

/// Sets a register to the word of another.
pub fn copy(code: &mut Code, x: u32, y: u32)
    requires to { x < 32 }
    requires from { y < 32 }
    requires room { length (copy_items x y) ≤ code.old.room }
    ensures code { code.new ≡ appended code.old (copy_items x y) }
    ensures fit { AllFit (copy_items x y) }
{
    if x != y {
        code.put(Ins::Imm(ImmOp::Addi, x, y, 0));
    }
}

/// Sets a register to what an operation makes of two words.
pub fn operation(code: &mut Code, r: u32, op: BinOp, a: u32, b: Operand)
    requires to { r < 32 }
    requires left { a < 32 }
    requires right { IsTrue (are_registers (operand_names b)) }
    requires fits { IsTrue (operand_fits op b) }
    requires room { length (op_items r op a b) ≤ code.old.room }
    ensures code { code.new ≡ appended code.old (op_items r op a b) }
    ensures fit { AllFit (op_items r op a b) }
{
    match b {
        Operand::Name(b) => by_name(code, r, op, a, b),
        Operand::Const(c) => by_constant(code, r, op, a, c),
    }
}

fn by_name(code: &mut Code, r: u32, op: BinOp, a: u32, b: u32)
    requires to { r < 32 }
    requires left { a < 32 }
    requires right { b < 32 }
    requires room { length (by_name_items op r a b) ≤ code.old.room }
    ensures code { code.new ≡ appended code.old (by_name_items op r a b) }
    ensures fit { AllFit (by_name_items op r a b) }
{
    match op {
        BinOp::Add => code.put(Ins::Reg(RegOp::Add, r, a, b)),
        BinOp::Sub => code.put(Ins::Reg(RegOp::Sub, r, a, b)),
        BinOp::Mul => code.put(Ins::Reg(RegOp::Mul, r, a, b)),
        BinOp::Mulhuu => code.put(Ins::Reg(RegOp::Mulhu, r, a, b)),
        BinOp::Divu => code.put(Ins::Reg(RegOp::Divu, r, a, b)),
        BinOp::Remu => code.put(Ins::Reg(RegOp::Remu, r, a, b)),
        BinOp::And => code.put(Ins::Reg(RegOp::And, r, a, b)),
        BinOp::Or => code.put(Ins::Reg(RegOp::Or, r, a, b)),
        BinOp::Xor => code.put(Ins::Reg(RegOp::Xor, r, a, b)),
        BinOp::Sru => code.put(Ins::Reg(RegOp::Srl, r, a, b)),
        BinOp::Slu => code.put(Ins::Reg(RegOp::Sll, r, a, b)),
        BinOp::Srs => code.put(Ins::Reg(RegOp::Sra, r, a, b)),
        BinOp::Lts => code.put(Ins::Reg(RegOp::Slt, r, a, b)),
        BinOp::Ltu => code.put(Ins::Reg(RegOp::Sltu, r, a, b)),
        BinOp::Eq => {
            code.put(Ins::Reg(RegOp::Sub, r, a, b));
            code.put(Ins::Imm(ImmOp::Sltiu, r, r, 1));
        }
    }
}

fn by_constant(code: &mut Code, r: u32, op: BinOp, a: u32, c: i32)
    requires to { r < 32 }
    requires left { a < 32 }
    requires fits { IsTrue (fits_operation op c) }
    requires room { length (by_constant_items op r a c) ≤ code.old.room }
    ensures code { code.new ≡ appended code.old (by_constant_items op r a c) }
    ensures fit { AllFit (by_constant_items op r a c) }
{
    match op {
        BinOp::Add => code.put(Ins::Imm(ImmOp::Addi, r, a, c)),
        BinOp::Sub => code.put(Ins::Imm(ImmOp::Addi, r, a, opposite(c))),
        BinOp::And => code.put(Ins::Imm(ImmOp::Andi, r, a, c)),
        BinOp::Or => code.put(Ins::Imm(ImmOp::Ori, r, a, c)),
        BinOp::Xor => code.put(Ins::Imm(ImmOp::Xori, r, a, c)),
        BinOp::Sru => code.put(Ins::Shift(ShiftOp::Srli, r, a, amount(c))),
        BinOp::Slu => code.put(Ins::Shift(ShiftOp::Slli, r, a, amount(c))),
        BinOp::Srs => code.put(Ins::Shift(ShiftOp::Srai, r, a, amount(c))),
        BinOp::Lts => code.put(Ins::Imm(ImmOp::Slti, r, a, c)),
        BinOp::Ltu => code.put(Ins::Imm(ImmOp::Sltiu, r, a, c)),
        BinOp::Eq => {
            code.put(Ins::Imm(ImmOp::Xori, r, a, c));
            code.put(Ins::Imm(ImmOp::Sltiu, r, r, 1));
        }
        BinOp::Mul | BinOp::Mulhuu | BinOp::Divu | BinOp::Remu => {}
    }
}

// The opposite number, as far as the type has it.
fn opposite(c: i32) -> i32
    requires { negsuc 2147483646 ≤ℤ c }
    ensures { result ≡ opposite c }
{
    -c
}

// The amount of a shift by a constant.
fn amount(c: i32) -> u32
    ensures { result ≡ amount c }
{
    if c < 0 { 0 } else { c as u32 }
}

/// The instruction that loads a number of so many bytes.
pub fn load_op(size: Size) -> LoadOp
    ensures { result ≡ load_op size }
{
    match size {
        Size::One => LoadOp::Lbu,
        Size::Two => LoadOp::Lhu,
        Size::Four => LoadOp::Lw,
    }
}

/// The instruction that stores a number of so many bytes.
pub fn store_op(size: Size) -> StoreOp
    ensures { result ≡ store_op size }
{
    match size {
        Size::One => StoreOp::Sb,
        Size::Two => StoreOp::Sh,
        Size::Four => StoreOp::Sw,
    }
}

/// Sets a register to the address so many bytes above the stack pointer.
pub fn place(code: &mut Code, x: u32, distance: u32)
    requires register { x < 32 }
    requires room { length (place_items x distance) ≤ code.old.room }
    ensures code { code.new ≡ appended code.old (place_items x distance) }
    ensures fit { AllFit (place_items x distance) }
{
    if distance < 2048 {
        code.put(Ins::Imm(ImmOp::Addi, x, STACK_POINTER, distance as i32));
    } else {
        constant(code, x, distance);
        code.put(Ins::Reg(RegOp::Add, x, x, STACK_POINTER));
    }
}
