// Statements with other names.

ghost use Rattle.std.specs.Prelude.{◌≡◌, ◌<◌, IfOk, IsTrue, length, map, slice_index};
ghost use Rattle.std.specs.List.{flat_map};
ghost use Rattle.br_flatimp.specs.Parts.{operand_names, statement_names, test_names};
ghost use Rattle.br_flatimp.specs.Renaming.{renamed, renamed_operand, renamed_test};
ghost use Rattle.br_flatimp.specs.WellFormed.{are_below};

use br_base::NoMemory;
use br_flatimp::{Cond, Operand, Stmt};
use sqlite_items::Items;
use std::alloc::Global;

/// Statements with other names throughout.
#[cycle(renamed)]
pub(crate) fn renamed_all(alloc: Global, to: &[u32], body: &[Stmt]) -> Result<Items<Stmt>, NoMemory>
    requires { IsTrue (are_below (length to.now) (flat_map statement_names body.now)) }
    ensures { IfOk result (λ made. made ≡ map (renamed (slice_index to.now)) body.now) }
{
    let mut made = Items::new(alloc);
    for s in body {
        made.push(renamed(alloc, to, s)?)?;
    }
    Ok(made)
}

#[cycle(renamed)]
#[tactic(auto, using(crate::proofs::Forms::renames))]
fn renamed(alloc: Global, to: &[u32], s: &Stmt) -> Result<Stmt, NoMemory>
    requires { IsTrue (are_below (length to.now) (statement_names s.now)) }
    ensures { IfOk result (λ made. made ≡ renamed (slice_index to.now) s.now) }
{
    match s {
        Stmt::Lit(x, n) => Ok(Stmt::Lit(to[*x as usize], *n)),
        Stmt::Copy(x, y) => Ok(Stmt::Copy(to[*x as usize], to[*y as usize])),
        Stmt::Op(x, op, y, z) => {
            let z = renamed_operand(to, *z);
            Ok(Stmt::Op(to[*x as usize], *op, to[*y as usize], z))
        }
        Stmt::Load(x, size, y, offset) => {
            Ok(Stmt::Load(to[*x as usize], *size, to[*y as usize], *offset))
        }
        Stmt::Store(size, y, z, offset) => {
            Ok(Stmt::Store(*size, to[*y as usize], to[*z as usize], *offset))
        }
        Stmt::Table(x, size, bytes, y) => {
            let bytes = Items::from_slice(alloc, bytes.as_slice())?;
            Ok(Stmt::Table(to[*x as usize], *size, bytes, to[*y as usize]))
        }
        Stmt::Stackalloc(x, n, body) => {
            let body = renamed_all(alloc, to, body.as_slice())?;
            Ok(Stmt::Stackalloc(to[*x as usize], *n, body))
        }
        Stmt::If(test, first, second) => {
            let test = renamed_test(to, *test);
            let first = renamed_all(alloc, to, first.as_slice())?;
            let second = renamed_all(alloc, to, second.as_slice())?;
            Ok(Stmt::If(test, first, second))
        }
        Stmt::Loop(first, test, last) => {
            let first = renamed_all(alloc, to, first.as_slice())?;
            let test = renamed_test(to, *test);
            let last = renamed_all(alloc, to, last.as_slice())?;
            Ok(Stmt::Loop(first, test, last))
        }
        Stmt::Call(xs, g, ys) => {
            let xs = new_names(alloc, to, xs.as_slice())?;
            let ys = new_names(alloc, to, ys.as_slice())?;
            Ok(Stmt::Call(xs, *g, ys))
        }
        Stmt::Read(x, y) => Ok(Stmt::Read(to[*x as usize], to[*y as usize])),
        Stmt::Write(y, z) => Ok(Stmt::Write(to[*y as usize], to[*z as usize])),
    }
}

/// The new names of names.
pub(crate) fn new_names(alloc: Global, to: &[u32], xs: &[u32]) -> Result<Items<u32>, NoMemory>
    requires { IsTrue (are_below (length to.now) xs.now) }
    ensures { IfOk result (λ made. made ≡ map (slice_index to.now) xs.now) }
{
    let mut made = Items::new(alloc);
    for x in xs {
        made.push(to[*x as usize])?;
    }
    Ok(made)
}

fn renamed_operand(to: &[u32], z: Operand) -> Operand
    requires { IsTrue (are_below (length to.now) (operand_names z)) }
    ensures { result ≡ renamed_operand (slice_index to.now) z }
{
    match z {
        Operand::Name(y) => Operand::Name(to[y as usize]),
        Operand::Const(c) => Operand::Const(c),
    }
}

fn renamed_test(to: &[u32], test: Cond) -> Cond
    requires { IsTrue (are_below (length to.now) (test_names test)) }
    ensures { result ≡ renamed_test (slice_index to.now) test }
{
    match test {
        Cond::NonZero(y) => Cond::NonZero(to[y as usize]),
        Cond::Compare(rel, y, z) => Cond::Compare(rel, to[y as usize], to[z as usize]),
    }
}
