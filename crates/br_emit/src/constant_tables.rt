// The code of constant tables.

ghost use Rattle.std.specs.Prelude.{◌≡◌, ◌≤◌, ◌<◌, length};
ghost use Rattle.br_emit.specs.Code.{AllFit, table_words, table_items};
ghost use Rattle.br_emit.specs.Buffer.{appended};

use crate::code::Code;
use crate::jumps::over;
use crate::straight::load_op;
use br_rv32im::{Ins, RegOp};
use br_words::Size;

// The register of a table's address.
const ADDRESS: u32 = 1;

/// Sets a register to bytes of a constant table, at an offset in another.
pub fn table(code: &mut Code, x: u32, size: Size, bytes: &[u8], y: u32)
    requires room { length (table_items x size bytes.now y) ≤ code.old.room }
    requires few { length (table_words bytes.now) ≤ 1048576 }
    requires to { x < 32 }
    requires offset { y < 32 }
    ensures code { code.new ≡ appended code.old (table_items x size bytes.now y) }
    ensures fit { AllFit (table_items x size bytes.now y) }
{
    over(code, ADDRESS, word_count(bytes));
    words(code, bytes);
    code.put(Ins::Reg(RegOp::Add, ADDRESS, ADDRESS, y));
    code.put(Ins::Load(load_op(size), x, ADDRESS, 0));
}

// How many words bytes take.
#[tactic(auto, using(crate::proofs::Sizing::table_words_length))]
fn word_count(bytes: &[u8]) -> u32
    requires { length (table_words bytes.now) ≤ 1048576 }
    ensures { result ≡ length (table_words bytes.now) }
{
    bytes.len().div_ceil(4) as u32
}

// Bytes in words, the last filled up with zeros.
fn words(code: &mut Code, bytes: &[u8])
    requires { length (table_words bytes.now) ≤ code.old.room }
    ensures code { code.new ≡ appended code.old (table_words bytes.now) }
    ensures fit { AllFit (table_words bytes.now) }
{
    let mut rest = bytes;
    while let [a, b, c, d, others @ ..] = rest {
        code.put_bytes(*a, *b, *c, *d);
        rest = others;
    }
    last_word(code, rest);
}

// A word of less than four bytes, or none.
fn last_word(code: &mut Code, bytes: &[u8])
    requires few { length bytes.now < 4 }
    requires room { length (table_words bytes.now) ≤ code.old.room }
    ensures code { code.new ≡ appended code.old (table_words bytes.now) }
    ensures fit { AllFit (table_words bytes.now) }
{
    match bytes {
        [a, b, c, ..] => code.put_bytes(*a, *b, *c, 0),
        [a, b] => code.put_bytes(*a, *b, 0, 0),
        [a] => code.put_bytes(*a, 0, 0, 0),
        [] => {}
    }
}
