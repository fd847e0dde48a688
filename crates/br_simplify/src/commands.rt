// Commands in their simplest form.

ghost use Rattle.std.specs.Prelude.{◌≡◌, map, IfOk};
ghost use Rattle.br_simplify.specs.Simple.{simple_command, simple_if, simple_while};

use crate::conditions::{part_test, simple_test};
use crate::expressions::{expression, expressions, literal};
use br_base::{Name, NoMemory};
use br_syntax::{Cmd, Expr};
use sqlite_items::Items;
use std::alloc::Global;

/// Commands in turn.
#[cycle(simple)]
pub(crate) fn commands(alloc: Global, cs: &[Cmd]) -> Result<Items<Cmd>, NoMemory>
    ensures { IfOk result (λ ss. ss ≡ map simple_command cs.now) }
{
    let mut simple = Items::new(alloc);
    for c in cs {
        simple.push(command(alloc, c)?)?;
    }
    Ok(simple)
}

#[cycle(simple)]
fn command(alloc: Global, c: &Cmd) -> Result<Cmd, NoMemory>
    ensures { IfOk result (λ s. s ≡ simple_command c.now) }
{
    match c {
        Cmd::Skip => Ok(Cmd::Skip),
        Cmd::Set(x, e) => {
            let value = expression(alloc, e)?;
            Ok(Cmd::Set(x.copy()?, value))
        }
        Cmd::Unset(x) => Ok(Cmd::Unset(x.copy()?)),
        Cmd::Store(size, a, e) => {
            let at = expression(alloc, a)?;
            let value = expression(alloc, e)?;
            Ok(Cmd::Store(*size, at, value))
        }
        Cmd::Stackalloc(x, n, inner) => {
            let body = commands(alloc, inner.as_slice())?;
            Ok(Cmd::Stackalloc(x.copy()?, *n, body))
        }
        Cmd::If(e, first, second) => {
            let test = expression(alloc, e)?;
            let taken = commands(alloc, first.as_slice())?;
            let other = commands(alloc, second.as_slice())?;
            Ok(simple_if(test, taken, other))
        }
        Cmd::While(e, inner) => {
            let test = expression(alloc, e)?;
            let body = commands(alloc, inner.as_slice())?;
            Ok(simple_while(test, body))
        }
        Cmd::Seq(inner) => {
            let body = commands(alloc, inner.as_slice())?;
            Ok(Cmd::Seq(body))
        }
        Cmd::Call {
            at,
            results,
            callee,
            args,
        } => {
            let args = expressions(alloc, args.as_slice())?;
            let results = names(alloc, results.as_slice())?;
            Ok(Cmd::Call {
                at: *at,
                results,
                callee: callee.copy()?,
                args,
            })
        }
        Cmd::Interact {
            at,
            results,
            action,
            args,
        } => {
            let args = expressions(alloc, args.as_slice())?;
            let results = names(alloc, results.as_slice())?;
            Ok(Cmd::Interact {
                at: *at,
                results,
                action: action.copy()?,
                args,
            })
        }
    }
}

/// Equal names in turn.
pub(crate) fn names(alloc: Global, xs: &[Name]) -> Result<Items<Name>, NoMemory>
    ensures { IfOk result (λ ys. ys ≡ xs.now) }
{
    let mut copies = Items::new(alloc);
    for x in xs {
        copies.push(x.copy()?)?;
    }
    Ok(copies)
}

fn simple_if(e: Expr, first: Items<Cmd>, second: Items<Cmd>) -> Cmd
    ensures { result ≡ simple_if e first second }
{
    if let Some(n) = literal(&e) {
        return Cmd::Seq(if n == 0 { second } else { first });
    }
    let test = part_test(e);
    if test.exchanged {
        Cmd::If(test.word, second, first)
    } else {
        Cmd::If(test.word, first, second)
    }
}

fn simple_while(e: Expr, body: Items<Cmd>) -> Cmd
    ensures { result ≡ simple_while e body }
{
    if literal(&e) == Some(0) {
        Cmd::Skip
    } else {
        Cmd::While(simple_test(e), body)
    }
}
