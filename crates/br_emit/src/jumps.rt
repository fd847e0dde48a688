// The jump piece: jumps and branches over parts whose length is known.

ghost use Rattle.std.specs.Prelude.{◌≡◌, ◌+◌, ◌*◌, ◌-◌, ◌%◌, ◌<◌, ◌≤◌, ◌^◌};
ghost use Rattle.std.specs.Prelude.{nat_lt, if◌then◌else◌, ◌∷◌, [], length};
ghost use Rattle.br_emit.specs.Code.{AllFit, Branching, Links, is_near, is_reached};
ghost use Rattle.br_emit.specs.Code.{distance_to, item_word, branch_item, jump_items};
ghost use Rattle.br_emit.specs.Code.{over_items, opposite_branch, otherwise, related};
ghost use Rattle.br_emit.specs.Code.{branching, skip_items, back_items, call_items};
ghost use Rattle.br_emit.specs.Sizes.{call_words, jump_words, over_words, skip_words, back_words};
ghost use Rattle.br_emit.specs.Sizes.{if_head_items, if_middle_items, loop_head_items};
ghost use Rattle.br_emit.specs.Sizes.{if_head_words, if_middle_words, loop_head_words};
ghost use Rattle.br_emit.specs.Buffer.{appended};
ghost use Rattle.br_emit.specs.Ready.{HasRegisters, InReach};

use crate::code::Code;
use crate::straight::{high_part, low_part};
use br_flatimp::{Cond, Rel};
use br_rv32im::{BranchOp, Ins, UpperOp, encode};
use br_words::Layout;
use std::marker::Model;

// The register of return addresses (RISC-V calling conventions, integer register
// convention), which a far jump goes through.
const RETURN_ADDRESS: u32 = 1;

// The register that is 0, and that a jump links to which nobody returns from.
const ZERO: u32 = 0;

/// A branch: its relation and its two registers.
#[derive(Drop)]
pub struct Branch {
    how: BranchOp,
    left: u32,
    right: u32,
}

impl Model for Branch {
    ghost use Rattle.br_emit.specs.Code.{Branching};

    ghost Value = { Branching };

    ghost view = { λ b. record {
      how = b.how;
      left = b.left;
      right = b.right;
    } };
}

impl Branch {
    /// The branch that is taken where a test holds.
    pub fn when(test: Cond) -> Branch
        ensures { result ≡ branching test }
    {
        match test {
            Cond::NonZero(x) => Branch {
                how: BranchOp::Bne,
                left: x,
                right: ZERO,
            },
            Cond::Compare(rel, x, y) => Branch {
                how: related(rel),
                left: x,
                right: y,
            },
        }
    }

    /// The branch that is taken where this one is not.
    pub fn otherwise(&self) -> Branch
        ensures { result ≡ otherwise self.now }
    {
        Branch {
            how: opposite_branch(self.how),
            left: self.left,
            right: self.right,
        }
    }

    // The branch to so many bytes from it on.
    fn put(&self, code: &mut Code, distance: i32)
        requires room { 1 ≤ code.old.room }
        requires fit { AllFit (branch_item self.now distance ∷ []) }
        ensures { code.new ≡ appended code.old (branch_item self.now distance ∷ []) }
    {
        code.put(Ins::Branch(self.how, self.left, self.right, distance));
    }

    /// Goes on after the n words after it where the branch is taken.
    pub fn skip(&self, code: &mut Code, n: u32)
        requires room { length (skip_items self.now n) ≤ code.old.room }
        requires registers { HasRegisters self.now }
        requires few { n ≤ 4194304 }
        ensures code { code.new ≡ appended code.old (skip_items self.now n) }
        ensures fit { AllFit (skip_items self.now n) }
    {
        if 4 * (n + 1) < 4096 {
            self.put(code, (4 * (n + 1)) as i32);
        } else {
            self.otherwise().put(code, (4 * (1 + over_words(n))) as i32);
            over(code, ZERO, n);
        }
    }

    /// Goes back by n words, counted from its first, where the branch is taken.
    pub fn back(&self, code: &mut Code, n: u32)
        requires room { length (back_items self.now n) ≤ code.old.room }
        requires registers { HasRegisters self.now }
        requires few { n ≤ 4194304 }
        ensures code { code.new ≡ appended code.old (back_items self.now n) }
        ensures fit { AllFit (back_items self.now n) }
    {
        if 4 * n <= 4096 {
            self.put(code, -((4 * n) as i32));
        } else {
            let distance = back_distance(n);
            self.otherwise()
                .put(code, (4 * (1 + jump_words(distance))) as i32);
            jump(code, ZERO, distance);
        }
    }
}

// The distance modulo 2^32 of a jump that stands after a branch,
// back by n words counted from the branch.
fn back_distance(n: u32) -> u32
    requires { n ≤ 4194304 }
    ensures { result ≡ 2 ^ 32 - 4 * (n + 1) }
{
    u32::MAX - (4 * n + 3)
}

// The branch that is taken where another is not.
fn opposite_branch(how: BranchOp) -> BranchOp
    ensures { result ≡ opposite_branch how }
{
    match how {
        BranchOp::Beq => BranchOp::Bne,
        BranchOp::Bne => BranchOp::Beq,
        BranchOp::Blt => BranchOp::Bge,
        BranchOp::Bge => BranchOp::Blt,
        BranchOp::Bltu => BranchOp::Bgeu,
        BranchOp::Bgeu => BranchOp::Bltu,
    }
}

fn related(rel: Rel) -> BranchOp
    ensures { result ≡ related rel }
{
    match rel {
        Rel::Eq => BranchOp::Beq,
        Rel::Ne => BranchOp::Bne,
        Rel::Lts => BranchOp::Blt,
        Rel::Ges => BranchOp::Bge,
        Rel::Ltu => BranchOp::Bltu,
        Rel::Geu => BranchOp::Bgeu,
    }
}

// Whether a distance modulo 2^32 is in the reach of JAL.
fn is_near(w: u32) -> bool
    ensures { result ≡ is_near w }
{
    w < 1_048_576 || 4_293_918_720 <= w
}

/// The words of a jump by so many bytes modulo 2^32.
pub fn jump_words(w: u32) -> u32
    ensures { result ≡ jump_words w }
{
    if is_near(w) { 1 } else { 2 }
}

/// Jumps by so many bytes modulo 2^32 from its first word, and
/// leaves the address after it in `link`.
pub fn jump(code: &mut Code, link: u32, w: u32)
    requires room { length (jump_items link w) ≤ code.old.room }
    requires link { link < 32 }
    requires whole { w % 4 ≡ 0 }
    ensures code { code.new ≡ appended code.old (jump_items link w) }
    ensures fit { AllFit (jump_items link w) }
{
    if is_near(w) {
        code.put(Ins::Jal(link, w.cast_signed()));
    } else {
        code.put(Ins::Upper(UpperOp::Auipc, RETURN_ADDRESS, high_part(w) % 1_048_576));
        code.put(Ins::Jalr(link, RETURN_ADDRESS, low_part(w)));
    }
}

// The distance of a jump over n words.
fn over_distance(n: u32) -> u32
    requires { n ≤ 4194304 }
    ensures { result ≡ (if nat_lt (4 * (n + 1)) (2 ^ 20) then 4 * (n + 1) else 4 * (n + 2)) }
{
    if 4 * (n + 1) < 1_048_576 {
        4 * (n + 1)
    } else {
        4 * (n + 2)
    }
}

/// The words of a jump over n words.
pub fn over_words(n: u32) -> u32
    requires { n ≤ 4194304 }
    ensures { result ≡ over_words n }
{
    jump_words(over_distance(n))
}

/// Jumps over the n words after it, and leaves the address after it in `link`.
pub fn over(code: &mut Code, link: u32, n: u32)
    requires room { length (over_items link n) ≤ code.old.room }
    requires link { link < 32 }
    requires few { n ≤ 4194304 }
    ensures code { code.new ≡ appended code.old (over_items link n) }
    ensures fit { AllFit (over_items link n) }
{
    jump(code, link, over_distance(n));
}

// The words of a branch over n words.
fn skip_words(n: u32) -> u32
    requires { n ≤ 4194304 }
    ensures { result ≡ skip_words n }
{
    if 4 * (n + 1) < 4096 {
        1
    } else {
        1 + over_words(n)
    }
}

/// The words of a branch back over n words.
pub fn back_words(n: u32) -> u32
    requires { n ≤ 4194304 }
    ensures { result ≡ back_words n }
{
    if 4 * n <= 4096 {
        1
    } else {
        1 + jump_words(back_distance(n))
    }
}

/// The words before the first part of a conditional whose parts have so many words.
pub fn if_head_words(a: u32, b: u32) -> u32
    requires first { a ≤ 1048576 }
    requires second { b ≤ 1048576 }
    ensures { result ≡ if_head_words a b }
{
    if b == 0 {
        skip_words(a)
    } else if a == 0 {
        skip_words(b)
    } else {
        skip_words(a + over_words(b))
    }
}

/// The words between the parts of a conditional.
pub fn if_middle_words(a: u32, b: u32) -> u32
    requires { b ≤ 1048576 }
    ensures { result ≡ if_middle_words a b }
{
    if a == 0 || b == 0 { 0 } else { over_words(b) }
}

/// The words before the parts of a loop whose last part has so many words.
pub fn loop_head_words(n: u32) -> u32
    requires { n ≤ 1048576 }
    ensures { result ≡ loop_head_words n }
{
    if n == 0 { 0 } else { over_words(n) }
}

/// What stands before the first part of a conditional whose parts have so many words.
pub fn if_head(code: &mut Code, test: Cond, a: u32, b: u32)
    requires room { length (if_head_items (branching test) a b) ≤ code.old.room }
    requires registers { HasRegisters (branching test) }
    requires first { a ≤ 1048576 }
    requires second { b ≤ 1048576 }
    ensures code { code.new ≡ appended code.old (if_head_items (branching test) a b) }
    ensures fit { AllFit (if_head_items (branching test) a b) }
{
    let branch = Branch::when(test);
    if b == 0 {
        branch.otherwise().skip(code, a);
    } else if a == 0 {
        branch.skip(code, b);
    } else {
        branch.otherwise().skip(code, a + over_words(b));
    }
}

/// What stands between the parts of a conditional.
pub fn if_middle(code: &mut Code, a: u32, b: u32)
    requires room { length (if_middle_items a b) ≤ code.old.room }
    requires second { b ≤ 1048576 }
    ensures code { code.new ≡ appended code.old (if_middle_items a b) }
    ensures fit { AllFit (if_middle_items a b) }
{
    if a != 0 && b != 0 {
        over(code, ZERO, b);
    }
}

/// What stands before the parts of a loop whose last part has so many words.
pub fn loop_head(code: &mut Code, n: u32)
    requires room { length (loop_head_items n) ≤ code.old.room }
    requires few { n ≤ 1048576 }
    ensures code { code.new ≡ appended code.old (loop_head_items n) }
    ensures fit { AllFit (loop_head_items n) }
{
    if n != 0 {
        over(code, ZERO, n);
    }
}

/// Goes back by n words, counted from its first, where a test holds.
pub fn loop_back(code: &mut Code, test: Cond, n: u32)
    requires room { length (back_items (branching test) n) ≤ code.old.room }
    requires registers { HasRegisters (branching test) }
    requires few { n ≤ 4194304 }
    ensures code { code.new ≡ appended code.old (back_items (branching test) n) }
    ensures fit { AllFit (back_items (branching test) n) }
{
    Branch::when(test).back(code, n);
}

// ---- calls

// The distance modulo 2^32 from the word of code at a place to an address.
fn distance_to(place: usize, target: u32) -> u32
    ensures { result ≡ distance_to place target }
{
    let before = 4 * (place % 1_073_741_824) as u32;
    target.wrapping_sub(Layout::Two.code_base().wrapping_add(before))
}

// Whether JAL can say a distance.
fn is_reached(w: u32) -> bool
    ensures { result ≡ is_reached w }
{
    is_near(w) && w % 4 == 0
}

// The word at a place of a jump to an address, and of no instruction where that is out of reach.
fn link_word(place: usize, target: u32) -> u32
    ensures { result ≡ item_word place (Links target) }
{
    let distance = distance_to(place, target);
    if is_reached(distance) {
        encode(Ins::Jal(RETURN_ADDRESS, distance.cast_signed()))
    } else {
        0
    }
}

// Jumps to an address, and leaves the address after the jump in x1.
fn link(code: &mut Code, target: u32)
    requires { 1 ≤ code.old.room }
    ensures { code.new ≡ appended code.old (Links target ∷ []) }
{
    let word = link_word(code.words().len(), target);
    code.push(word);
}

/// The words of a call, where the whole code is near or not.
pub fn call_words(near: bool) -> u32
    ensures { result ≡ call_words near }
{
    if near { 1 } else { 2 }
}

/// Calls the code at an address, and leaves the address after the call in x1: by
/// one jump where the whole code is near.
pub fn call(code: &mut Code, near: bool, target: u32)
    requires room { length (call_items near target) ≤ code.old.room }
    requires target { InReach target }
    ensures code { code.new ≡ appended code.old (call_items near target) }
    ensures fit { AllFit (call_items near target) }
{
    if near {
        link(code, target);
    } else {
        code.put(Ins::Upper(UpperOp::Lui, RETURN_ADDRESS, high_part(target)));
        code.put(Ins::Jalr(RETURN_ADDRESS, RETURN_ADDRESS, low_part(target)));
    }
}
