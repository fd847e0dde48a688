// The operations of the source language on words.

ghost use Rattle.std.specs.Prelude.{◌≡◌, ℕ, ◌^◌, ◌<◌};
ghost use Rattle.br_words.specs.Words.{IsWord, value_of_op};

/// An operation on two words.
#[derive(Clone, Copy, Debug, PartialEq, Eq)]
pub enum BinOp {
    /// The sum, modulo 2^32.
    Add,
    /// The difference, modulo 2^32.
    Sub,
    /// The product, modulo 2^32.
    Mul,
    /// The upper 32 bits of the unsigned product of 64 bits.
    Mulhuu,
    /// The unsigned quotient, and 2^32 - 1 for a divisor of 0.
    Divu,
    /// The unsigned remainder, and the dividend for a divisor of 0.
    Remu,
    /// Bit by bit.
    And,
    /// Bit by bit.
    Or,
    /// Bit by bit.
    Xor,
    /// A shift right with zeros, by the second word modulo 32.
    Sru,
    /// A shift left, by the second word modulo 32.
    Slu,
    /// A shift right with copies of the sign, by the second word modulo 32.
    Srs,
    /// 1 where the first is less as a signed number, else 0.
    Lts,
    /// 1 where the first is less as an unsigned number, else 0.
    Ltu,
    /// 1 where the two are equal, else 0.
    Eq,
}

/// What an operation makes of two words, modulo 2^32. A divisor of 0 gives 2^32 - 1 as the quotient
/// and the dividend as the remainder; a shift takes the low five bits of `b` as its amount. Both
/// are as in RV32IM.
pub fn op(o: BinOp, a: u32, b: u32) -> u32
    ensures { result ≡ value_of_op o a b }
{
    match o {
        BinOp::Add => a.wrapping_add(b),
        BinOp::Sub => a.wrapping_sub(b),
        BinOp::Mul => a.wrapping_mul(b),
        BinOp::Mulhuu => (a as u64 * b as u64 >> 32) as u32,
        BinOp::Divu => if b == 0 { u32::MAX } else { a / b },
        BinOp::Remu => if b == 0 { a } else { a % b },
        BinOp::And => a & b,
        BinOp::Or => a | b,
        BinOp::Xor => a ^ b,
        BinOp::Sru => a >> (b % 32),
        BinOp::Slu => a << (b % 32),
        BinOp::Srs => (a.cast_signed() >> (b % 32)).cast_unsigned(),
        BinOp::Lts => (a.cast_signed() < b.cast_signed()) as u32,
        BinOp::Ltu => (a < b) as u32,
        BinOp::Eq => (a == b) as u32,
    }
}
