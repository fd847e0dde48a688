// Expressions in their simplest form.

ghost use Rattle.std.specs.Prelude.{◌≡◌, map, IfOk};
ghost use Rattle.br_simplify.specs.Simple.{literal, simple_choice, simple_expression};
ghost use Rattle.br_simplify.specs.Simple.{simple_operation, with_literal};

use crate::conditions::part_test;
use crate::operations::{Form, commutes, simple_form};
use br_base::NoMemory;
use br_syntax::Expr;
use br_words::{BinOp, op};
use sqlite_items::{Boxed, Items};
use std::alloc::Global;

/// An expression.
pub(crate) fn expression(alloc: Global, e: &Expr) -> Result<Expr, NoMemory>
    ensures { IfOk result (λ s. s ≡ simple_expression e.now) }
{
    match e {
        Expr::Literal(n) => Ok(Expr::Literal(*n)),
        Expr::Var(x) => Ok(Expr::Var(x.copy()?)),
        Expr::Load(size, a) => {
            let at = expression(alloc, a.get())?;
            Ok(Expr::Load(*size, Boxed::new(alloc, at)?))
        }
        Expr::Table(size, bytes, i) => {
            let offset = expression(alloc, i.get())?;
            let bytes = Items::from_slice(alloc, bytes.as_slice())?;
            Ok(Expr::Table(*size, bytes, Boxed::new(alloc, offset)?))
        }
        Expr::Op(o, a, b) => {
            let first = expression(alloc, a.get())?;
            let second = expression(alloc, b.get())?;
            operation(alloc, *o, first, second)
        }
        Expr::Ite(test, a, b) => {
            let test = expression(alloc, test.get())?;
            let first = expression(alloc, a.get())?;
            let second = expression(alloc, b.get())?;
            choice(alloc, test, first, second)
        }
    }
}

/// Expressions in turn.
pub(crate) fn expressions(alloc: Global, es: &[Expr]) -> Result<Items<Expr>, NoMemory>
    ensures { IfOk result (λ ss. ss ≡ map simple_expression es.now) }
{
    let mut simple = Items::new(alloc);
    for e in es {
        simple.push(expression(alloc, e)?)?;
    }
    Ok(simple)
}

/// The literal that an expression is.
pub(crate) fn literal(e: &Expr) -> Option<u32>
    ensures { result ≡ literal e.now }
{
    match e {
        Expr::Literal(n) => Some(*n),
        Expr::Var(_) | Expr::Load(_, _) | Expr::Table(_, _, _) => None,
        Expr::Op(_, _, _) | Expr::Ite(_, _, _) => None,
    }
}

fn operation(alloc: Global, o: BinOp, a: Expr, b: Expr) -> Result<Expr, NoMemory>
    ensures { IfOk result (λ s. s ≡ simple_operation o a b) }
{
    match (literal(&a), literal(&b)) {
        (Some(m), Some(n)) => Ok(Expr::Literal(op(o, m, n))),
        (None, Some(n)) => with_literal(alloc, simple_form(o, n), a),
        (Some(m), None) => {
            if commutes(o) {
                with_literal(alloc, simple_form(o, m), b)
            } else {
                with_expression(alloc, o, a, b)
            }
        }
        (None, None) => with_expression(alloc, o, a, b),
    }
}

fn with_literal(alloc: Global, f: Form, a: Expr) -> Result<Expr, NoMemory>
    ensures { IfOk result (λ s. s ≡ with_literal f a) }
{
    with_expression(alloc, f.op, a, Expr::Literal(f.literal))
}

fn with_expression(alloc: Global, o: BinOp, a: Expr, b: Expr) -> Result<Expr, NoMemory>
    ensures { IfOk result (λ s. s ≡ Expr.Op o a b) }
{
    let first = Boxed::new(alloc, a)?;
    let second = Boxed::new(alloc, b)?;
    Ok(Expr::Op(o, first, second))
}

fn choice(alloc: Global, test: Expr, a: Expr, b: Expr) -> Result<Expr, NoMemory>
    ensures { IfOk result (λ s. s ≡ simple_choice test a b) }
{
    if let Some(n) = literal(&test) {
        return Ok(if n == 0 { b } else { a });
    }
    let test = part_test(test);
    if test.exchanged {
        with_parts(alloc, test.word, b, a)
    } else {
        with_parts(alloc, test.word, a, b)
    }
}

fn with_parts(alloc: Global, test: Expr, a: Expr, b: Expr) -> Result<Expr, NoMemory>
    ensures { IfOk result (λ s. s ≡ Expr.Ite test a b) }
{
    let test = Boxed::new(alloc, test)?;
    let first = Boxed::new(alloc, a)?;
    let second = Boxed::new(alloc, b)?;
    Ok(Expr::Ite(test, first, second))
}
