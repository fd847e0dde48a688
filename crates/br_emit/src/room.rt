// How many words of code functions have at most.

ghost use Rattle.std.specs.Prelude.{◌≡◌, ◌+◌, ◌≤◌, sum, map};
ghost use Rattle.br_flatimp.specs.Sizes.{words_for, statement_bulk, flat_bulk};
ghost use Rattle.br_emit.specs.Written.{is_near_program};

use br_flatimp::{FlatFunc, Stmt};

// The most words of a function beside those of its statements.
const FRAME_WORDS: u32 = 96;

/// The most words of the code of functions.
pub fn most_words(funcs: &[FlatFunc]) -> u32
    requires { flat_bulk funcs.now ≤ 1048576 }
    ensures { result ≡ flat_bulk funcs.now }
{
    let mut words = 0;
    for f in funcs {
        words += FRAME_WORDS + most_all(f.body.as_slice());
    }
    words
}

/// Whether the code of functions is in the reach of JAL from each of its words.
pub fn is_near_program(funcs: &[FlatFunc]) -> bool
    requires { flat_bulk funcs.now ≤ 1048576 }
    ensures { result ≡ is_near_program funcs.now }
{
    most_words(funcs) < 262_144
}

// The most words of the code of statements.
#[cycle(bounding)]
fn most_all(body: &[Stmt]) -> u32
    requires { sum (map statement_bulk body.now) ≤ 1048576 }
    ensures { result ≡ sum (map statement_bulk body.now) }
{
    let mut words = 0;
    for s in body {
        words += most_of(s);
    }
    words
}

// The most words of the code of two parts and the jumps around them.
#[cycle(bounding)]
fn most_both(first: &[Stmt], second: &[Stmt]) -> u32
    requires { 5 + sum (map statement_bulk first.now) + sum (map statement_bulk second.now)
        ≤ 1048576 }
    ensures { result
        ≡ 5 + sum (map statement_bulk first.now) + sum (map statement_bulk second.now) }
{
    5 + most_all(first) + most_all(second)
}

// The most words of the code of a buffer's statements, and of its address.
#[cycle(bounding)]
fn most_below(body: &[Stmt]) -> u32
    requires { 3 + sum (map statement_bulk body.now) ≤ 1048576 }
    ensures { result ≡ 3 + sum (map statement_bulk body.now) }
{
    3 + most_all(body)
}

// The most words of the code of a statement.
#[cycle(bounding)]
fn most_of(s: &Stmt) -> u32
    requires { statement_bulk s.now ≤ 1048576 }
    ensures { result ≡ statement_bulk s.now }
{
    match s {
        Stmt::Lit(_, _) | Stmt::Op(_, _, _, _) | Stmt::Call(_, _, _) => 2,
        Stmt::Copy(_, _)
        | Stmt::Load(_, _, _, _)
        | Stmt::Store(_, _, _, _)
        | Stmt::Read(_, _)
        | Stmt::Write(_, _) => 1,
        Stmt::Table(_, _, bytes, _) => most_of_table(bytes.len()),
        Stmt::Stackalloc(_, _, body) => most_below(body.as_slice()),
        Stmt::If(_, first, second) => most_both(first.as_slice(), second.as_slice()),
        Stmt::Loop(first, _, last) => most_both(first.as_slice(), last.as_slice()),
    }
}

// The most words of the code of a table of so many bytes.
fn most_of_table(bytes: usize) -> u32
    requires { 4 + words_for bytes ≤ 1048576 }
    ensures { result ≡ 4 + words_for bytes }
{
    4 + bytes.div_ceil(4) as u32
}
