// The bulk of programs, computed in 32 bits. A sum past the type's end stays at the type's end.

ghost use Rattle.std.specs.Prelude.{◌≡◌, ℕ, ◌+◌, ◌/◌, min, length};
ghost use Rattle.br_measure.specs.Bulk.{bulk, words_for, function_bulk, command_bulk};
ghost use Rattle.br_measure.specs.Bulk.{commands_bulk, expression_bulk, expressions_bulk};

use br_syntax::{Cmd, Expr, Func, Program};

/// The bulk of a program: a sum over its expressions, commands and functions. A bulk past
/// 4,294,967,295 is given as that.
pub fn bulk_of(p: &Program) -> u32
    ensures { result ≡ min (bulk p.now.funcs) 4294967295 }
{
    let mut total = 0u32;
    for f in p.funcs.as_slice() {
        total = total.saturating_add(function(f));
    }
    total
}

/// The bulk of a function, or 4,294,967,295 where that is less.
pub fn function(f: &Func) -> u32
    ensures { result ≡ min (function_bulk f.now) 4294967295 }
{
    let counts = count(f.args.len()).saturating_add(count(f.results.len()));
    counts
        .saturating_add(8)
        .saturating_add(commands(f.body.as_slice()))
}

// A number of parts, as far as the type reaches.
fn count(n: usize) -> u32
    ensures { result ≡ min n 4294967295 }
{
    n.min(u32::MAX as usize) as u32
}

#[cycle(command)]
fn commands(cs: &[Cmd]) -> u32
    ensures { result ≡ min (commands_bulk cs.now) 4294967295 }
{
    let mut total = 0u32;
    for c in cs {
        total = total.saturating_add(command(c));
    }
    total
}

#[cycle(command)]
fn command(c: &Cmd) -> u32
    ensures { result ≡ min (command_bulk c.now) 4294967295 }
{
    let parts = match c {
        Cmd::Skip | Cmd::Unset(_) => 0,
        Cmd::Set(_, e) => expression(e),
        Cmd::Store(_, a, e) => expression(a).saturating_add(expression(e)),
        Cmd::Stackalloc(_, _, body) | Cmd::Seq(body) => commands(body.as_slice()),
        Cmd::If(e, first, second) => expression(e)
            .saturating_add(commands(first.as_slice()))
            .saturating_add(commands(second.as_slice())),
        Cmd::While(e, body) => expression(e).saturating_add(commands(body.as_slice())),
        Cmd::Call { results, args, .. } => count(args.len())
            .saturating_add(count(results.len()))
            .saturating_add(expressions(args.as_slice())),
        Cmd::Interact { args, .. } => expressions(args.as_slice()),
    };
    parts.saturating_add(1)
}

fn expressions(es: &[Expr]) -> u32
    ensures { result ≡ min (expressions_bulk es.now) 4294967295 }
{
    let mut total = 0u32;
    for e in es {
        total = total.saturating_add(expression(e));
    }
    total
}

fn expression(e: &Expr) -> u32
    ensures { result ≡ min (expression_bulk e.now) 4294967295 }
{
    let parts = match e {
        Expr::Literal(_) | Expr::Var(_) => 0,
        Expr::Load(_, a) => expression(a.get()),
        Expr::Table(_, bytes, i) => count(bytes.len().div_ceil(4)).saturating_add(expression(
            i.get(),
        )),
        Expr::Op(_, a, b) => expression(a.get()).saturating_add(expression(b.get())),
        Expr::Ite(test, a, b) => expression(test.get())
            .saturating_add(expression(a.get()))
            .saturating_add(expression(b.get())),
    };
    parts.saturating_add(1)
}
