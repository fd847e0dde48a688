// How many words the code of statements is, in one pass over them.

ghost use Rattle.std.specs.Prelude.{◌≡◌, ◌++◌, ◌∷◌, ◌+◌, ◌≤◌, length};
ghost use Rattle.br_flatimp.specs.Sizes.{words_for};
ghost use Rattle.br_emit.specs.Code.{constant_items, copy_items, op_items, place_items};
ghost use Rattle.br_emit.specs.Sizes.{Sized, both_sized, over_words, sized};
ghost use Rattle.br_emit.specs.Sizes.{sized_all, sized_if, sized_loop};
ghost use Rattle.br_emit.specs.Buffer.{noted};

use crate::jumps::{
    back_words, call_words, if_head_words, if_middle_words, loop_head_words, over_words,
};
use crate::numbers::Numbers;
use crate::straight::is_short;
use br_flatimp::{Operand, Stmt};
use br_words::BinOp;

/// The words of the code of statements for so many free bytes, where the whole code is near or not,
/// and the lengths of the parts in them.
#[cycle(measuring)]
pub fn measure_all(lengths: &mut Numbers, near: bool, body: &[Stmt], free: u32) -> u32
    requires room { length (sized_all near body.now free).parts ≤ lengths.old.room }
    requires few { (sized_all near body.now free).words ≤ 1048576 }
    ensures words { result ≡ (sized_all near body.now free).words }
    ensures noted { lengths.new ≡ noted lengths.old (sized_all near body.now free).parts }
{
    let mut words = 0;
    for s in body {
        words += measure(lengths, near, s, free);
    }
    words
}

#[cycle(measuring)]
fn measure(lengths: &mut Numbers, near: bool, s: &Stmt, free: u32) -> u32
    requires room { length (sized near s.now free).parts ≤ lengths.old.room }
    requires few { (sized near s.now free).words ≤ 1048576 }
    ensures words { result ≡ (sized near s.now free).words }
    ensures noted { lengths.new ≡ noted lengths.old (sized near s.now free).parts }
{
    match s {
        Stmt::Lit(x, n) => constant_words(*x, *n),
        Stmt::Copy(x, y) => copy_words(*x, *y),
        Stmt::Op(x, op, y, z) => op_words(*x, *op, *y, *z),
        Stmt::Load(_, _, _, _) | Stmt::Store(_, _, _, _) | Stmt::Read(_, _) | Stmt::Write(_, _) =>
            1,
        Stmt::Call(_, _, _) => call_words(near),
        Stmt::Table(_, _, bytes, _) => table_words(bytes.len()),
        Stmt::Stackalloc(x, n, body) => measure_buffer(
            lengths,
            near,
            *x,
            body.as_slice(),
            free.saturating_sub(*n),
        ),
        Stmt::If(_, first, second) => measure_if(
            lengths,
            near,
            first.as_slice(),
            second.as_slice(),
            free,
        ),
        Stmt::Loop(first, _, last) => measure_loop(
            lengths,
            near,
            last.as_slice(),
            first.as_slice(),
            free,
        ),
    }
}

// A buffer's code, where so many bytes are free below it.
#[cycle(measuring)]
fn measure_buffer(lengths: &mut Numbers, near: bool, x: u32, body: &[Stmt], free: u32) -> u32
    requires room { length (sized_all near body.now free).parts ≤ lengths.old.room }
    requires few { length (place_items x free) + (sized_all near body.now free).words ≤ 1048576 }
    ensures words { result ≡ length (place_items x free) + (sized_all near body.now free).words }
    ensures noted { lengths.new ≡ noted lengths.old (sized_all near body.now free).parts }
{
    place_words(x, free) + measure_all(lengths, near, body, free)
}

#[cycle(measuring)]
fn measure_if(lengths: &mut Numbers, near: bool, first: &[Stmt], second: &[Stmt], free: u32) -> u32
    requires room { length (sized_if (sized_all near first.now free)
        (sized_all near second.now free)).parts ≤ lengths.old.room }
    requires few { (sized_if (sized_all near first.now free) (sized_all near second.now free)).words
        ≤ 1048576 }
    ensures words { result
        ≡ (sized_if (sized_all near first.now free) (sized_all near second.now free)).words }
    ensures noted { lengths.new ≡ noted lengths.old
        (sized_if (sized_all near first.now free) (sized_all near second.now free)).parts }
{
    let (a, b) = measure_two(lengths, near, first, second, free);
    if_head_words(a, b) + a + if_middle_words(a, b) + b
}

#[cycle(measuring)]
fn measure_loop(lengths: &mut Numbers, near: bool, last: &[Stmt], first: &[Stmt], free: u32) -> u32
    requires room { length (sized_loop (sized_all near first.now free)
        (sized_all near last.now free)).parts ≤ lengths.old.room }
    requires few { (sized_loop (sized_all near first.now free) (sized_all near last.now free)).words
        ≤ 1048576 }
    ensures words { result
        ≡ (sized_loop (sized_all near first.now free) (sized_all near last.now free)).words }
    ensures noted { lengths.new ≡ noted lengths.old
        (sized_loop (sized_all near first.now free) (sized_all near last.now free)).parts }
{
    let (b, a) = measure_two(lengths, near, last, first, free);
    loop_head_words(b) + b + a + back_words(b + a)
}

// Two parts: their own lengths come before those in them.
#[cycle(measuring)]
fn measure_two(lengths: &mut Numbers, near: bool, a: &[Stmt], b: &[Stmt], free: u32) -> (u32, u32)
    requires room { 2 + length (sized_all near a.now free).parts
        + length (sized_all near b.now free).parts ≤ lengths.old.room }
    requires first { (sized_all near a.now free).words ≤ 1048576 }
    requires second { (sized_all near b.now free).words ≤ 1048576 }
    ensures first { result.0 ≡ (sized_all near a.now free).words }
    ensures second { result.1 ≡ (sized_all near b.now free).words }
    ensures noted { lengths.new
        ≡ noted lengths.old ((sized_all near a.now free).words ∷ (sized_all near b.now free).words
        ∷ ((sized_all near a.now free).parts ++ (sized_all near b.now free).parts)) }
{
    let at = lengths.reserve();
    let first = measure_all(lengths, near, a, free);
    let second = measure_all(lengths, near, b, free);
    lengths.set(at, first, second);
    (first, second)
}

/// The words that set a register to a word.
pub fn constant_words(x: u32, n: u32) -> u32
    ensures { result ≡ length (constant_items x n) }
{
    if is_short(n) || n % 4096 == 0 { 1 } else { 2 }
}

fn copy_words(x: u32, y: u32) -> u32
    ensures { result ≡ length (copy_items x y) }
{
    if x == y { 0 } else { 1 }
}

fn op_words(x: u32, op: BinOp, y: u32, z: Operand) -> u32
    ensures { result ≡ length (op_items x op y z) }
{
    match (op, z) {
        (BinOp::Eq, _) => 2,
        (BinOp::Mul | BinOp::Mulhuu | BinOp::Divu | BinOp::Remu, Operand::Const(_)) => 0,
        _ => 1,
    }
}

fn place_words(x: u32, distance: u32) -> u32
    ensures { result ≡ length (place_items x distance) }
{
    if distance < 2048 {
        1
    } else {
        constant_words(x, distance) + 1
    }
}

fn table_words(bytes: usize) -> u32
    requires { over_words (words_for bytes) + words_for bytes + 2 ≤ 1048576 }
    ensures { result ≡ over_words (words_for bytes) + words_for bytes + 2 }
{
    let words = bytes.div_ceil(4) as u32;
    over_words(words) + words + 2
}
