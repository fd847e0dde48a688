// Statements once more.

ghost use Rattle.std.specs.Prelude.{◌≡◌, IfOk};

use br_base::NoMemory;
use br_flatimp::Stmt;
use sqlite_items::Items;
use std::alloc::Global;

#[cycle(copy)]
fn copies(alloc: Global, body: &[Stmt]) -> Result<Items<Stmt>, NoMemory>
    ensures { IfOk result (λ made. made ≡ body.now) }
{
    let mut made = Items::new(alloc);
    for s in body {
        made.push(copy(alloc, s)?)?;
    }
    Ok(made)
}

/// A statement once more, with its parts.
#[cycle(copy)]
pub(crate) fn copy(alloc: Global, s: &Stmt) -> Result<Stmt, NoMemory>
    ensures { IfOk result (λ made. made ≡ s.now) }
{
    match s {
        Stmt::Lit(x, n) => Ok(Stmt::Lit(*x, *n)),
        Stmt::Copy(x, y) => Ok(Stmt::Copy(*x, *y)),
        Stmt::Op(x, op, y, z) => Ok(Stmt::Op(*x, *op, *y, *z)),
        Stmt::Load(x, size, y, offset) => Ok(Stmt::Load(*x, *size, *y, *offset)),
        Stmt::Store(size, y, z, offset) => Ok(Stmt::Store(*size, *y, *z, *offset)),
        Stmt::Table(x, size, bytes, y) => {
            let bytes = Items::from_slice(alloc, bytes.as_slice())?;
            Ok(Stmt::Table(*x, *size, bytes, *y))
        }
        Stmt::Stackalloc(x, n, body) => {
            let body = copies(alloc, body.as_slice())?;
            Ok(Stmt::Stackalloc(*x, *n, body))
        }
        Stmt::If(test, first, second) => {
            let first = copies(alloc, first.as_slice())?;
            let second = copies(alloc, second.as_slice())?;
            Ok(Stmt::If(*test, first, second))
        }
        Stmt::Loop(first, test, last) => {
            let first = copies(alloc, first.as_slice())?;
            let last = copies(alloc, last.as_slice())?;
            Ok(Stmt::Loop(first, *test, last))
        }
        Stmt::Call(xs, g, ys) => {
            let xs = Items::from_slice(alloc, xs.as_slice())?;
            let ys = Items::from_slice(alloc, ys.as_slice())?;
            Ok(Stmt::Call(xs, *g, ys))
        }
        Stmt::Read(x, y) => Ok(Stmt::Read(*x, *y)),
        Stmt::Write(y, z) => Ok(Stmt::Write(*y, *z)),
    }
}
