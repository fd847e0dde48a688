// Laws of the operations on words. Each function does nothing: what it ensures is the law.

ghost use Rattle.std.specs.Prelude.{◌≡◌, ℕ, ◌+◌, ◌-◌, ◌^◌, ◌<◌, ◌≤◌, ℤ, FitsSigned};
ghost use Rattle.std.specs.Int.{w32};
ghost use Rattle.br_words.specs.Bits.{low_bits, sign_extended, signed_bits};
ghost use Rattle.br_words.specs.Words.{IsWord, signed, value_of_op, wrapped};

use crate::operation::BinOp;

/// What an operation makes of two words is a word.
pub fn operations_answer_words()
    ensures { (o : BinOp) (a b : ℕ) → IsWord a → IsWord b → IsWord (value_of_op o a b) }
{}

/// Division by 0 is RV32IM's (M extension, division operations): the quotient has all bits set and
/// the remainder is the dividend.
pub fn zero_divisors_are_rv32im()
    ensures quotient { (a : ℕ) → value_of_op BinOp.Divu a 0 ≡ 2 ^ 32 - 1 }
    ensures remainder { (a : ℕ) → value_of_op BinOp.Remu a 0 ≡ a }
{}

/// A shift by 32 and more is RV32I's (integer register-register operations): only the low five bits
/// of the amount count.
pub fn shifts_are_rv32im()
    ensures left { (a b : ℕ) → value_of_op BinOp.Slu a (b + 32) ≡ value_of_op BinOp.Slu a b }
    ensures right { (a b : ℕ) → value_of_op BinOp.Sru a (b + 32) ≡ value_of_op BinOp.Sru a b }
    ensures signed_right { (a b : ℕ) →
        value_of_op BinOp.Srs a (b + 32) ≡ value_of_op BinOp.Srs a b }
{}

/// A word and the signed number that it stands for are one another's: two's complement.
pub fn signed_words_are_twos_complement()
    ensures fits { (a : ℕ) → IsWord a → FitsSigned w32 (signed a) }
    ensures back { (a : ℕ) → IsWord a → wrapped (signed a) ≡ a }
    ensures there { (z : ℤ) → FitsSigned w32 z → signed (wrapped z) ≡ z }
{}

/// Sign extension keeps the signed number that `n` bits stand for, and `n` bits are the low bits of
/// that number: two's complement at any width up to that of a word.
pub fn sign_extension_keeps_numbers()
    ensures same { (n x : ℕ) → 1 ≤ n → n ≤ 32 → x < 2 ^ n →
        signed (sign_extended n x) ≡ signed_bits n x }
    ensures word { (n x : ℕ) → 1 ≤ n → n ≤ 32 → x < 2 ^ n → IsWord (sign_extended n x) }
    ensures low { (n x : ℕ) → 1 ≤ n → x < 2 ^ n → low_bits n (signed_bits n x) ≡ x }
{}
