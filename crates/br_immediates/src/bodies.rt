// Statements with constants in place of names.

ghost use Rattle.std.specs.Prelude.{◌≡◌, true, IfOk, OnOk};
ghost use Rattle.std.specs.List.{list_all};
ghost use Rattle.br_flatimp.specs.Parts.{throughout};
ghost use Rattle.br_immediates.specs.Immediates.{literal_fits, no_literals, turn, with_constants};
ghost use Rattle.br_immediates.specs.Tables.{literals_of};

use crate::literals::Literals;
use br_base::NoMemory;
use br_flatimp::Stmt;
use sqlite_items::Items;
use std::alloc::Global;

/// The statements with constants of a list of statements: of a body or of a part of a statement.
#[cycle(statement)]
pub(crate) fn statements(alloc: Global, body: &[Stmt]) -> Result<Items<Stmt>, NoMemory>
    ensures code { IfOk result (λ made. made ≡ with_constants no_literals body.now) }
    ensures words { OnOk result (list_all (throughout literal_fits) body.now ≡ true) }
{
    let mut known = Literals::new(alloc);
    let mut made = Items::new(alloc);
    for s in body {
        made.push(statement(alloc, &known, s)?)?;
        known.pass(s)?;
    }
    Ok(made)
}

#[cycle(statement)]
#[tactic(auto, using(crate::proofs::Codes::made, crate::proofs::Codes::words))]
fn statement(alloc: Global, known: &Literals, s: &Stmt) -> Result<Stmt, NoMemory>
    ensures code { IfOk result (λ made. made ≡ (turn s.now).made (literals_of known.now.words)) }
    ensures words { OnOk result (throughout literal_fits s.now ≡ true) }
{
    match s {
        Stmt::Lit(x, n) => Ok(Stmt::Lit(*x, *n)),
        Stmt::Copy(x, y) => Ok(Stmt::Copy(*x, *y)),
        Stmt::Op(x, op, y, z) => Ok(Stmt::Op(*x, *op, *y, known.operand(*op, *z))),
        Stmt::Load(x, size, y, offset) => Ok(Stmt::Load(*x, *size, *y, *offset)),
        Stmt::Store(size, y, z, offset) => Ok(Stmt::Store(*size, *y, *z, *offset)),
        Stmt::Table(x, size, bytes, y) => {
            let bytes = Items::from_slice(alloc, bytes.as_slice())?;
            Ok(Stmt::Table(*x, *size, bytes, *y))
        }
        Stmt::Stackalloc(x, n, body) => {
            let body = statements(alloc, body.as_slice())?;
            Ok(Stmt::Stackalloc(*x, *n, body))
        }
        Stmt::If(test, first, second) => {
            let first = statements(alloc, first.as_slice())?;
            let second = statements(alloc, second.as_slice())?;
            Ok(Stmt::If(*test, first, second))
        }
        Stmt::Loop(first, test, last) => {
            let first = statements(alloc, first.as_slice())?;
            let last = statements(alloc, last.as_slice())?;
            Ok(Stmt::Loop(first, *test, last))
        }
        Stmt::Call(xs, g, ys) => {
            let xs = Items::from_slice(alloc, xs.as_slice())?;
            let ys = Items::from_slice(alloc, ys.as_slice())?;
            Ok(Stmt::Call(xs, *g, ys))
        }
        Stmt::Read(x, y) => Ok(Stmt::Read(*x, *y)),
        Stmt::Write(y, z) => Ok(Stmt::Write(*y, *z)),
    }
}
