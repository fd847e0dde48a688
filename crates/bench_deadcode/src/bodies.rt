// Bodies of functions with an argument 0 and a result 1.

ghost use Rattle.std.specs.Prelude.{◌<◌};

use anyhow::Result;
use br_flatimp::{Cond, Operand, Stmt};
use br_words::BinOp;
use sqlite_items::Items;
use std::alloc::Global;

// How many names there are where each statement writes one of its own.
const NAMES: u32 = 10_000;

// How many statements the largest functions have.
const MOST: u32 = 32_768;

// How many literals there are where each becomes a constant.
const LITERALS: u32 = 16_383;

// How many copies carry a value around a loop.
const COPIES: u32 = 5_000;

// How many of them there are where their names are used after the loop too.
const COPIES_OF_USED: u32 = 1_000;

// How deep loops stand in one another, and how many statements each of them has: with them there
// are as many statements or copies as above.
const DEPTH: u32 = 250;

const STATEMENTS: u32 = 39;

const NESTED_COPIES: u32 = 20;

/// How many names a function of this kind has, and its body.
pub(crate) fn body_of(alloc: Global, kind: &str) -> Result<Option<(u32, Items<Stmt>)>> {
    match kind.as_bytes() {
        b"unneeded" => Ok(Some((NAMES, unneeded(alloc, NAMES)?))),
        b"needed" => Ok(Some((NAMES, needed(alloc)?))),
        b"wide" => Ok(Some((MOST, unneeded(alloc, MOST)?))),
        b"straight" => Ok(Some((3, straight(alloc)?))),
        b"literals" => Ok(Some((LITERALS + 2, literals(alloc)?))),
        b"deep" => Ok(Some((DEPTH * STATEMENTS + 3, deep(alloc)?))),
        b"around" => Ok(Some((COPIES + 3, around(alloc)?))),
        b"nested" => Ok(Some((COPIES + 3, nested(alloc)?))),
        b"used" => Ok(Some((COPIES_OF_USED + 3, used(alloc)?))),
        _ => Ok(None),
    }
}

// The next name is one more.
fn next(x: u32) -> Stmt
    requires { x < 100000 }
{
    Stmt::Op(x + 1, BinOp::Add, x, Operand::Const(1))
}

// Does statements again until the argument, which it counts down, is 0.
fn again(alloc: Global, statements: Items<Stmt>) -> Result<Stmt> {
    let mut last = statements;
    last.push(Stmt::Op(0, BinOp::Sub, 0, Operand::Const(1)))?;
    Ok(Stmt::Loop(Items::new(alloc), Cond::NonZero(0), last))
}

// Each name is one more than the one before. None but the result's is read at the end.
fn unneeded(alloc: Global, names: u32) -> Result<Items<Stmt>>
    requires least { 0 < names }
    requires most { names < 100000 }
{
    let mut body = Items::new(alloc);
    body.push(Stmt::Copy(2, 0))?;
    for x in 2..names - 1 {
        body.push(next(x))?;
    }
    body.push(Stmt::Lit(1, 0))?;
    Ok(body)
}

// The same, with the last name for the result.
fn needed(alloc: Global) -> Result<Items<Stmt>> {
    let mut body = Items::new(alloc);
    body.push(Stmt::Copy(2, 0))?;
    for x in 2..NAMES - 1 {
        body.push(next(x))?;
    }
    body.push(Stmt::Copy(1, NAMES - 1))?;
    Ok(body)
}

// One name is added to, and nothing else reads it.
fn straight(alloc: Global) -> Result<Items<Stmt>> {
    let mut body = Items::new(alloc);
    body.push(Stmt::Copy(2, 0))?;
    for _ in 2..MOST {
        body.push(Stmt::Op(2, BinOp::Add, 2, Operand::Const(1)))?;
    }
    body.push(Stmt::Lit(1, 0))?;
    Ok(body)
}

// Literals set names of their own, and then each is added to the result.
fn literals(alloc: Global) -> Result<Items<Stmt>> {
    let mut body = Items::new(alloc);
    for x in 2..LITERALS + 2 {
        body.push(Stmt::Lit(x, 1))?;
    }
    body.push(Stmt::Copy(1, 0))?;
    for x in 2..LITERALS + 2 {
        body.push(Stmt::Op(1, BinOp::Add, 1, Operand::Name(x)))?;
    }
    Ok(body)
}

// Each statement in the loops reads what the one before writes, and
// nothing reads what the last one does.
fn deep(alloc: Global) -> Result<Items<Stmt>> {
    let mut body = Items::new(alloc);
    for loop_number in 0..DEPTH {
        let mut outer = Items::new(alloc);
        for place in 0..STATEMENTS {
            outer.push(next(2 + loop_number * STATEMENTS + place))?;
        }
        outer.push(again(alloc, body)?)?;
        body = outer;
    }
    body.push(Stmt::Lit(1, 0))?;
    Ok(body)
}

// Each turn carries the value of a name to the next, and the last one's is never read.
fn carried(alloc: Global, count: u32) -> Result<Items<Stmt>>
    requires { count < 100000 }
{
    let mut copies = Items::new(alloc);
    for place in 0..count {
        copies.push(Stmt::Copy(count - place + 2, count - place + 1))?;
    }
    Ok(copies)
}

fn around(alloc: Global) -> Result<Items<Stmt>> {
    let mut body = Items::new(alloc);
    let copies = carried(alloc, COPIES)?;
    body.push(again(alloc, copies)?)?;
    body.push(Stmt::Lit(1, 0))?;
    Ok(body)
}

// The same in loops inside one another.
fn nested(alloc: Global) -> Result<Items<Stmt>> {
    let mut body = Items::new(alloc);
    for loop_number in 0..DEPTH {
        let mut outer = Items::new(alloc);
        for place in 0..NESTED_COPIES {
            let x = (loop_number + 1) * NESTED_COPIES - place;
            outer.push(Stmt::Copy(x + 2, x + 1))?;
        }
        outer.push(again(alloc, body)?)?;
        body = outer;
    }
    body.push(Stmt::Lit(1, 0))?;
    Ok(body)
}

// After the loop the names are written again, and read by statements that stay.
fn used(alloc: Global) -> Result<Items<Stmt>> {
    let mut body = Items::new(alloc);
    let copies = carried(alloc, COPIES_OF_USED)?;
    body.push(again(alloc, copies)?)?;
    for x in 2..COPIES_OF_USED + 3 {
        body.push(Stmt::Lit(x, 1))?;
        body.push(Stmt::Write(0, x))?;
    }
    body.push(Stmt::Lit(1, 0))?;
    Ok(body)
}
