// The code around a function's body: frames and entries.

ghost use Rattle.std.specs.Prelude.{◌≡◌, ◌+◌, ◌-◌, ◌<◌, ◌≤◌, ◌∷◌, [], All, length, negsuc};
ghost use Rattle.br_rv32im.specs.declared.instruction.ImmOp.TheVariants.{Addi};
ghost use Rattle.br_rv32im.specs.declared.instruction.Ins.TheVariants.{Imm};
ghost use Rattle.br_emit.specs.Code.{Does, AllFit, save_items, restore_items};
ghost use Rattle.br_emit.specs.Code.{move_items, exit_items, entry_items};
ghost use Rattle.br_emit.specs.Buffer.{appended};
ghost use Rattle.br_emit.specs.Ready.{InReach};

use crate::code::Code;
use crate::jumps::call;
use crate::measuring::constant_words;
use crate::straight::{constant, is_short, low_part};
use br_rv32im::{ImmOp, Ins, LoadOp, RegOp, StoreOp, UpperOp};

// The registers of the calling conventions: 0, the return address and the stack pointer.
const ZERO: u32 = 0;

const RETURN_ADDRESS: u32 = 1;

const STACK_POINTER: u32 = 2;

/// Saves registers in words from the i-th word of the stack on.
pub fn save(code: &mut Code, i: u32, rs: &[u32])
    requires room { length (save_items i rs.now) ≤ code.old.room }
    requires registers { All (λ r. r < 32) rs.now }
    requires few { i + length rs.now ≤ 40 }
    ensures code { code.new ≡ appended code.old (save_items i rs.now) }
    ensures fit { AllFit (save_items i rs.now) }
{
    let mut at = i;
    for r in rs {
        code.put(Ins::Store(StoreOp::Sw, STACK_POINTER, *r, (4 * at) as i32));
        at += 1;
    }
}

/// Restores registers from words from the i-th word of the stack on.
pub fn restore(code: &mut Code, i: u32, rs: &[u32])
    requires room { length (restore_items i rs.now) ≤ code.old.room }
    requires registers { All (λ r. r < 32) rs.now }
    requires few { i + length rs.now ≤ 40 }
    ensures code { code.new ≡ appended code.old (restore_items i rs.now) }
    ensures fit { AllFit (restore_items i rs.now) }
{
    let mut at = i;
    for r in rs {
        code.put(Ins::Load(LoadOp::Lw, *r, STACK_POINTER, (4 * at) as i32));
        at += 1;
    }
}

/// Moves the stack pointer by so many bytes modulo 2^32.
pub fn move_stack(code: &mut Code, n: u32)
    requires { length (move_items n) ≤ code.old.room }
    ensures code { code.new ≡ appended code.old (move_items n) }
    ensures fit { AllFit (move_items n) }
{
    if n == 0 {} else if is_short(n) {
        code.put(Ins::Imm(ImmOp::Addi, STACK_POINTER, STACK_POINTER, low_part(n)));
    } else {
        constant(code, RETURN_ADDRESS, n);
        code.put(Ins::Reg(RegOp::Add, STACK_POINTER, STACK_POINTER, RETURN_ADDRESS));
    }
}

/// The words that move the stack pointer.
pub fn move_words(n: u32) -> u32
    ensures { result ≡ length (move_items n) }
{
    if n == 0 {
        0
    } else if is_short(n) {
        1
    } else {
        constant_words(RETURN_ADDRESS, n) + 1
    }
}

/// The caller goes on.
pub fn exit(code: &mut Code)
    requires { 1 ≤ code.old.room }
    ensures code { code.new ≡ appended code.old exit_items }
    ensures fit { AllFit exit_items }
{
    code.put(Ins::Jalr(ZERO, RETURN_ADDRESS, 0));
}

/// The entry of a function that is called: it sets the stack pointer
/// to the end of the stack, and calls it.
pub fn entry(code: &mut Code, near: bool, target: u32)
    requires room { length (entry_items near target) ≤ code.old.room }
    requires target { InReach target }
    ensures code { code.new ≡ appended code.old (entry_items near target) }
    ensures fit { AllFit (entry_items near target) }
{
    code.put(Ins::Upper(UpperOp::Lui, STACK_POINTER, 0x80300));
    call(code, near, target);
    code.put(Ins::Ecall);
}
