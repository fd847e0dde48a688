// What instructions compute, by operations of the processor that runs this program.

ghost use Rattle.std.specs.Prelude.{◌≡◌, ◌<◌, ◌*ℤ◌, pos};
ghost use Rattle.br_words.specs.Words.{signed};
ghost use Rattle.br_machine.specs.Arithmetic.{upper_half, signed_quotient, signed_remainder};
ghost use Rattle.br_machine.specs.Arithmetic.{reg_value, imm_value, shift_value, is_taken};

use br_rv32im::{BranchOp, ImmOp, RegOp, ShiftOp};

// The upper 32 of 64 bits.
fn upper_half(product: i64) -> u32
    ensures { result ≡ upper_half product }
{
    ((product >> 32) as i32).cast_unsigned()
}

// The upper 32 bits of the product of two signed words.
fn upper_signed(a: u32, b: u32) -> u32
    ensures { result ≡ upper_half (signed a *ℤ signed b) }
{
    upper_half(i64::from(a.cast_signed()) * i64::from(b.cast_signed()))
}

// The upper 32 bits of the product of a signed word and an unsigned one.
fn upper_mixed(a: u32, b: u32) -> u32
    ensures { result ≡ upper_half (signed a *ℤ pos b) }
{
    upper_half(i64::from(a.cast_signed()) * i64::from(b))
}

// Rounded toward zero; all bits set where the divisor is 0.
fn signed_quotient(a: u32, b: u32) -> u32
    ensures { result ≡ signed_quotient a b }
{
    if b == 0 {
        u32::MAX
    } else {
        a.cast_signed()
            .wrapping_div(b.cast_signed())
            .cast_unsigned()
    }
}

// With the sign of the dividend, which it is where the divisor is 0.
fn signed_remainder(a: u32, b: u32) -> u32
    ensures { result ≡ signed_remainder a b }
{
    if b == 0 {
        a
    } else {
        a.cast_signed()
            .wrapping_rem(b.cast_signed())
            .cast_unsigned()
    }
}

/// What two words give.
pub(crate) fn reg_value(op: RegOp, a: u32, b: u32) -> u32
    ensures { result ≡ reg_value op a b }
{
    match op {
        RegOp::Add => a.wrapping_add(b),
        RegOp::Sub => a.wrapping_sub(b),
        RegOp::Sll => a << (b % 32),
        RegOp::Slt => (a.cast_signed() < b.cast_signed()) as u32,
        RegOp::Sltu => (a < b) as u32,
        RegOp::Xor => a ^ b,
        RegOp::Srl => a >> (b % 32),
        RegOp::Sra => (a.cast_signed() >> (b % 32)).cast_unsigned(),
        RegOp::Or => a | b,
        RegOp::And => a & b,
        RegOp::Mul => a.wrapping_mul(b),
        RegOp::Mulh => upper_signed(a, b),
        RegOp::Mulhsu => upper_mixed(a, b),
        RegOp::Mulhu => (u64::from(a) * u64::from(b) >> 32) as u32,
        RegOp::Div => signed_quotient(a, b),
        RegOp::Divu => if b == 0 { u32::MAX } else { a / b },
        RegOp::Rem => signed_remainder(a, b),
        RegOp::Remu => if b == 0 { a } else { a % b },
    }
}

/// What a word and an immediate give, which is the second word.
pub(crate) fn imm_value(op: ImmOp, a: u32, b: u32) -> u32
    ensures { result ≡ imm_value op a b }
{
    match op {
        ImmOp::Addi => a.wrapping_add(b),
        ImmOp::Slti => (a.cast_signed() < b.cast_signed()) as u32,
        ImmOp::Sltiu => (a < b) as u32,
        ImmOp::Xori => a ^ b,
        ImmOp::Ori => a | b,
        ImmOp::Andi => a & b,
    }
}

/// A word shifted by a constant amount.
pub(crate) fn shift_value(op: ShiftOp, a: u32, amount: u32) -> u32
    requires { amount < 32 }
    ensures { result ≡ shift_value op a amount }
{
    match op {
        ShiftOp::Slli => a << amount,
        ShiftOp::Srli => a >> amount,
        ShiftOp::Srai => (a.cast_signed() >> amount).cast_unsigned(),
    }
}

/// Whether a branch on two words is taken.
pub(crate) fn is_taken(op: BranchOp, a: u32, b: u32) -> bool
    ensures { result ≡ is_taken op a b }
{
    match op {
        BranchOp::Beq => a == b,
        BranchOp::Bne => a != b,
        BranchOp::Blt => a.cast_signed() < b.cast_signed(),
        BranchOp::Bge => a.cast_signed() >= b.cast_signed(),
        BranchOp::Bltu => a < b,
        BranchOp::Bgeu => a >= b,
    }
}
