// The statements of commands.

ghost use Rattle.std.specs.Prelude.{◌≡◌, ◌≤◌, ◌+◌, ◌++◌, OnOk};
ghost use Rattle.br_flatten.specs.Flatten.{command, commands, device_statements};
ghost use Rattle.br_flatten.specs.Flatten.{read_statements, write_statements};
ghost use Rattle.br_flatten.specs.Scope.{scoped};
ghost use Rattle.br_flatten.specs.Scope.{settings, temporaries};
ghost use Rattle.br_measure.specs.Bulk.{command_bulk, commands_bulk};

use crate::operands::{address, into, operand, operands, tested};
use crate::scope::Scope;
use br_base::{Name, NoMemory};
use br_flatimp::Stmt;
use br_syntax::Cmd;
use sqlite_items::Items;

/// Adds the statements that set the literals that a function holds.
pub(crate) fn settings(scope: &Scope, out: &mut Items<Stmt>) -> Result<(), NoMemory>
    ensures { OnOk result
        (out.new ≡ out.old ++ settings (scoped scope.now.variables.now scope.now.held.now)) }
{
    let mut number = scope.variables.len() as u32;
    for n in scope.held {
        out.push(Stmt::Lit(number, *n))?;
        number += 1;
    }
    Ok(())
}

/// Adds the statements of commands in turn.
#[cycle(command)]
pub(crate) fn commands(scope: &Scope, cs: &[Cmd], out: &mut Items<Stmt>) -> Result<(), NoMemory>
    requires { temporaries (scoped scope.now.variables.now scope.now.held.now)
        + commands_bulk cs.now ≤ 4294967295 }
    ensures { OnOk result (out.new ≡ out.old ++ commands scope.now.functions.now.funcs.now
        (scoped scope.now.variables.now scope.now.held.now) cs.now) }
{
    for c in cs {
        command(scope, c, out)?;
    }
    Ok(())
}

#[cycle(command)]
fn command(scope: &Scope, c: &Cmd, out: &mut Items<Stmt>) -> Result<(), NoMemory>
    requires { temporaries (scoped scope.now.variables.now scope.now.held.now)
        + command_bulk c.now ≤ 4294967295 }
    ensures { OnOk result (out.new ≡ out.old ++ command scope.now.functions.now.funcs.now
        (scoped scope.now.variables.now scope.now.held.now) c.now) }
{
    let free = scope.temporaries();
    match c {
        Cmd::Skip | Cmd::Unset(_) => {}
        Cmd::Set(x, e) => {
            into(scope, e, scope.variable(x), free, out)?;
        }
        Cmd::Store(size, a, e) => {
            let to = address(scope, a, free, out)?;
            let value = operand(scope, e, to.next, out)?;
            out.push(Stmt::Store(*size, to.at, value.at, to.offset))?;
        }
        Cmd::Stackalloc(x, n, inner) => {
            let mut body = Items::new(scope.alloc);
            commands(scope, inner.as_slice(), &mut body)?;
            out.push(Stmt::Stackalloc(scope.variable(x), *n, body))?;
        }
        Cmd::If(e, first, second) => {
            let test = tested(scope, e, free, out)?;
            let mut taken = Items::new(scope.alloc);
            commands(scope, first.as_slice(), &mut taken)?;
            let mut other = Items::new(scope.alloc);
            commands(scope, second.as_slice(), &mut other)?;
            out.push(Stmt::If(test.cond, taken, other))?;
        }
        Cmd::While(e, inner) => {
            let mut first = Items::new(scope.alloc);
            let test = tested(scope, e, free, &mut first)?;
            let mut body = Items::new(scope.alloc);
            commands(scope, inner.as_slice(), &mut body)?;
            out.push(Stmt::Loop(first, test.cond, body))?;
        }
        Cmd::Seq(body) => {
            commands(scope, body.as_slice(), out)?;
        }
        Cmd::Call {
            results,
            callee,
            args,
            ..
        } => {
            let places = operands(scope, args.as_slice(), free, out)?;
            let numbers = scope.variables(results.as_slice())?;
            out.push(Stmt::Call(numbers, scope.callee(callee), places))?;
        }
        Cmd::Interact {
            results,
            action,
            args,
            ..
        } => {
            let places = operands(scope, args.as_slice(), free, out)?;
            let numbers = scope.variables(results.as_slice())?;
            device(action, numbers.as_slice(), places.as_slice(), out)?;
        }
    }
    Ok(())
}

// Adds the read or the write of a device word.
fn device(action: &Name, xs: &[u32], ys: &[u32], out: &mut Items<Stmt>) -> Result<(), NoMemory>
    ensures { OnOk result (out.new ≡ out.old ++ device_statements action.now xs.now ys.now) }
{
    if action.bytes() == b"MMIOREAD".as_slice() {
        read(xs, ys, out)
    } else {
        write(xs, ys, out)
    }
}

fn read(xs: &[u32], ys: &[u32], out: &mut Items<Stmt>) -> Result<(), NoMemory>
    ensures { OnOk result (out.new ≡ out.old ++ read_statements xs.now ys.now) }
{
    if let ([x], [y]) = (xs, ys) {
        out.push(Stmt::Read(*x, *y))?;
    }
    Ok(())
}

fn write(xs: &[u32], ys: &[u32], out: &mut Items<Stmt>) -> Result<(), NoMemory>
    ensures { OnOk result (out.new ≡ out.old ++ write_statements xs.now ys.now) }
{
    if let ([], [y, z]) = (xs, ys) {
        out.push(Stmt::Write(*y, *z))?;
    }
    Ok(())
}
