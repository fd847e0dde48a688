// Tests of whether words are 0.

ghost use Rattle.std.specs.Prelude.{◌≡◌, false, is_some, unwrap_or};
ghost use Rattle.std.specs.Option.{option_and_then, option_map};
ghost use Rattle.br_simplify.specs.Simple.{asked, asks_zero, compares};
ghost use Rattle.br_simplify.specs.Simple.{is_comparison, part_test, simple_test};

use crate::expressions::literal;
use br_syntax::Expr;
use br_words::BinOp;

/// The expression that a test reads, and whether the parts for its two answers are exchanged.
#[derive(Drop)]
pub(crate) struct Test {
    pub(crate) word: Expr,
    pub(crate) exchanged: bool,
}

/// A test with a part for each answer.
pub(crate) fn part_test(e: Expr) -> Test
    ensures { result ≡ part_test e }
{
    let e = simple_test(e);
    if is_asked(&e) && !asks_comparison(&e) {
        Test {
            word: asked(e),
            exchanged: true,
        }
    } else {
        Test {
            word: e,
            exchanged: false,
        }
    }
}

/// A test of whether the word is 0 of a test of whether another word is 0 is a test of that word.
pub(crate) fn simple_test(e: Expr) -> Expr
    ensures { result ≡ simple_test e }
{
    if is_asked_twice(&e) {
        asked(asked(e))
    } else {
        e
    }
}

// The expression of which another asks whether its word is 0, or the other itself.
fn asked(e: Expr) -> Expr
    ensures { result ≡ unwrap_or (asked e) e }
{
    match e {
        Expr::Op(o, a, b) => {
            if asks_zero(o, literal(b.get())) {
                a.into_inner()
            } else {
                Expr::Op(o, a, b)
            }
        }
        other => other,
    }
}

fn is_asked(e: &Expr) -> bool
    ensures { result ≡ is_some (asked e.now) }
{
    match e {
        Expr::Op(o, _, b) => asks_zero(*o, literal(b.get())),
        Expr::Literal(_) | Expr::Var(_) | Expr::Load(_, _) => false,
        Expr::Table(_, _, _) | Expr::Ite(_, _, _) => false,
    }
}

fn is_asked_twice(e: &Expr) -> bool
    ensures { result ≡ is_some (option_and_then asked (asked e.now)) }
{
    match e {
        Expr::Op(o, a, b) => asks_zero(*o, literal(b.get())) && is_asked(a.get()),
        Expr::Literal(_) | Expr::Var(_) | Expr::Load(_, _) => false,
        Expr::Table(_, _, _) | Expr::Ite(_, _, _) => false,
    }
}

// Whether an expression asks whether the word of a comparison is 0.
fn asks_comparison(e: &Expr) -> bool
    ensures { result ≡ unwrap_or (option_map compares (asked e.now)) false }
{
    match e {
        Expr::Op(o, a, b) => asks_zero(*o, literal(b.get())) && compares(a.get()),
        Expr::Literal(_) | Expr::Var(_) | Expr::Load(_, _) => false,
        Expr::Table(_, _, _) | Expr::Ite(_, _, _) => false,
    }
}

// Whether an expression compares two words.
fn compares(e: &Expr) -> bool
    ensures { result ≡ compares e.now }
{
    match e {
        Expr::Op(o, _, _) => is_comparison(*o),
        Expr::Literal(_) | Expr::Var(_) | Expr::Load(_, _) => false,
        Expr::Table(_, _, _) | Expr::Ite(_, _, _) => false,
    }
}

fn is_comparison(o: BinOp) -> bool
    ensures { result ≡ is_comparison o }
{
    match o {
        BinOp::Lts | BinOp::Ltu | BinOp::Eq => true,
        BinOp::Add | BinOp::Sub | BinOp::Mul | BinOp::Mulhuu | BinOp::Divu | BinOp::Remu => false,
        BinOp::And | BinOp::Or | BinOp::Xor | BinOp::Sru | BinOp::Slu | BinOp::Srs => false,
    }
}

/// Whether an operation with this literal on its right asks whether the word on its left is 0.
pub fn asks_zero(o: BinOp, right: Option<u32>) -> bool
    ensures { result ≡ asks_zero o right }
{
    match o {
        BinOp::Eq => match right {
            Some(n) => n == 0,
            None => false,
        },
        BinOp::Lts | BinOp::Ltu | BinOp::Add | BinOp::Sub | BinOp::Mul => false,
        BinOp::Mulhuu | BinOp::Divu | BinOp::Remu | BinOp::And | BinOp::Or => false,
        BinOp::Xor | BinOp::Sru | BinOp::Slu | BinOp::Srs => false,
    }
}
