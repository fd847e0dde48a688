// What is left of functions, beside what was written by hand.

use crate::remove_dead;
use br_base::Name;
use br_flatimp::{Cond, FlatFunc, FlatProgram, Operand, Stmt, well_formed};
use br_words::{BinOp, Size};
use sqlite_items::Items;
use std::alloc::Global;
use std::process::Abort;
use std::test::Fail;

fn one(alloc: Global, s: Stmt) -> Result<Items<Stmt>, Fail> {
    let mut body = Items::new(alloc);
    body.push(s)?;
    Ok(body)
}

// What is left of a function with ten names, of which 0 and 1
// are its arguments and 9 is its result.
fn left(rt: &impl Abort, alloc: Global, body: Items<Stmt>) -> Result<Items<Stmt>, Fail> {
    let mut funcs = Items::new(alloc);
    funcs.push(FlatFunc {
        name: Name::from_bytes(Vec::from_slice(alloc, b"f")?).ok_or("no name")?,
        args: Items::from_slice(alloc, &[0, 1])?,
        results: Items::from_slice(alloc, &[9])?,
        names: 10,
        body,
    })?;
    funcs.push(FlatFunc {
        name: Name::from_bytes(Vec::from_slice(alloc, b"g")?).ok_or("no name")?,
        args: Items::new(alloc),
        results: Items::from_slice(alloc, &[0])?,
        names: 1,
        body: one(alloc, Stmt::Lit(0, 7))?,
    })?;
    let p = FlatProgram { funcs };
    let formed = well_formed(&p);
    assert!(rt; formed, "not well formed");
    let mut q = remove_dead(alloc, p)?;
    q.funcs.pop().ok_or("no function")?;
    Ok(q.funcs.pop().ok_or("no function")?.body)
}

// Statements are the same, one by one, where they print the same.
fn same(
    rt: &impl Abort,
    alloc: Global,
    made: &Items<Stmt>,
    wanted: &Items<Stmt>,
) -> Result<(), Fail> {
    let made = format!(in alloc; "{made:?}")?;
    let wanted = format!(in alloc; "{wanted:?}")?;
    assert_eq!(rt; made.as_str(), wanted.as_str());
    Ok(())
}

// A chain of statements of which each reads what the one before writes goes in one sweep, also
// where it writes one name again and again.
#[test]
fn chains_go(rt: HostRuntime) -> Result<(), Fail> {
    let alloc = rt.alloc();
    let mut body = one(alloc, Stmt::Lit(9, 4))?;
    body.push(Stmt::Copy(2, 0))?;
    body.push(Stmt::Op(3, BinOp::Add, 2, Operand::Const(1)))?;
    body.push(Stmt::Op(3, BinOp::Mul, 3, Operand::Name(2)))?;
    body.push(Stmt::Load(4, Size::Two, 3, 8))?;
    body.push(Stmt::Table(5, Size::One, Items::from_slice(alloc, &[9])?, 4))?;
    let made = left(&rt, alloc, body)?;
    same(&rt, alloc, &made, &one(alloc, Stmt::Lit(9, 4))?)
}

// What is read later stays, whatever stands between, and so do statements that do more than to
// write a name: a read, a write, a store, a call and a loop.
#[test]
fn others_stay(rt: HostRuntime) -> Result<(), Fail> {
    let alloc = rt.alloc();
    let made = left(&rt, alloc, kept(alloc)?)?;
    same(&rt, alloc, &made, &kept(alloc)?)
}

fn kept(alloc: Global) -> Result<Items<Stmt>, Fail> {
    let mut body = one(alloc, Stmt::Lit(2, 5))?;
    body.push(Stmt::Read(3, 0))?;
    let results = Items::from_slice(alloc, &[4])?;
    body.push(Stmt::Call(results, 1, Items::new(alloc)))?;
    let turn = one(alloc, Stmt::Op(0, BinOp::Sub, 0, Operand::Const(1)))?;
    body.push(Stmt::Loop(Items::new(alloc), Cond::NonZero(0), turn))?;
    body.push(Stmt::Store(Size::Four, 1, 2, 0))?;
    body.push(Stmt::Write(1, 1))?;
    body.push(Stmt::Stackalloc(5, 8, Items::new(alloc)))?;
    body.push(Stmt::If(Cond::NonZero(1), Items::new(alloc), Items::new(alloc)))?;
    body.push(Stmt::Lit(9, 0))?;
    Ok(body)
}

// Copies that carry a value around a loop, each to the next, and that nothing else
// reads, go one turn after the other. A name that is written in one part of a
// conditional and read after it stays there.
#[test]
fn parts_go(rt: HostRuntime) -> Result<(), Fail> {
    let alloc = rt.alloc();
    let mut turn = one(alloc, Stmt::Copy(4, 3))?;
    turn.push(Stmt::Copy(3, 2))?;
    turn.push(Stmt::Copy(2, 1))?;
    turn.push(Stmt::Op(0, BinOp::Sub, 0, Operand::Const(1)))?;
    let mut first = one(alloc, Stmt::Lit(9, 1))?;
    first.push(Stmt::Lit(6, 1))?;
    let second = one(alloc, Stmt::Lit(7, 2))?;
    let mut body = one(alloc, Stmt::Lit(9, 0))?;
    body.push(Stmt::Loop(Items::new(alloc), Cond::NonZero(0), turn))?;
    body.push(Stmt::If(Cond::NonZero(1), first, second))?;
    body.push(Stmt::Stackalloc(8, 4, one(alloc, Stmt::Copy(6, 8))?))?;
    let made = left(&rt, alloc, body)?;
    let turn = one(alloc, Stmt::Op(0, BinOp::Sub, 0, Operand::Const(1)))?;
    let mut wanted = one(alloc, Stmt::Lit(9, 0))?;
    wanted.push(Stmt::Loop(Items::new(alloc), Cond::NonZero(0), turn))?;
    let first = one(alloc, Stmt::Lit(9, 1))?;
    wanted.push(Stmt::If(Cond::NonZero(1), first, Items::new(alloc)))?;
    wanted.push(Stmt::Stackalloc(8, 4, Items::new(alloc)))?;
    same(&rt, alloc, &made, &wanted)
}

// Copies around a loop, each to the next, of which the last writes a given name.
fn carried(alloc: Global, last: u32) -> Result<Items<Stmt>, Fail> {
    let mut turn = one(alloc, Stmt::Copy(last, 4))?;
    turn.push(Stmt::Copy(4, 3))?;
    turn.push(Stmt::Copy(3, 2))?;
    turn.push(Stmt::Copy(2, 1))?;
    turn.push(Stmt::Op(0, BinOp::Sub, 0, Operand::Const(1)))?;
    let mut body = one(alloc, Stmt::Lit(9, 0))?;
    body.push(Stmt::Loop(Items::new(alloc), Cond::NonZero(0), turn))?;
    Ok(body)
}

// None of the copies around a loop is needed, or all are.
#[test]
fn carried_values(rt: HostRuntime) -> Result<(), Fail> {
    let alloc = rt.alloc();
    let made = left(&rt, alloc, carried(alloc, 5)?)?;
    let turn = one(alloc, Stmt::Op(0, BinOp::Sub, 0, Operand::Const(1)))?;
    let mut wanted = one(alloc, Stmt::Lit(9, 0))?;
    wanted.push(Stmt::Loop(Items::new(alloc), Cond::NonZero(0), turn))?;
    same(&rt, alloc, &made, &wanted)?;
    let made = left(&rt, alloc, carried(alloc, 9)?)?;
    same(&rt, alloc, &made, &carried(alloc, 9)?)
}
