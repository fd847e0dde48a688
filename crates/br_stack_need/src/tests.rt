// Programs in register form, and what their functions need.

mod forms;

use self::forms::{calls_rise, is_register_form};
use crate::needs;
use br_base::Name;
use br_flatimp::{Cond, FlatFunc, FlatProgram, Operand, Rel, Stmt};
use br_words::{BinOp, Size};
use sqlite_items::Items;
use std::alloc::Global;
use std::process::Abort;
use std::test::Fail;

fn function(
    alloc: Global,
    name: &str,
    args: &[u32],
    results: &[u32],
    body: Items<Stmt>,
) -> Result<FlatFunc, Fail> {
    Ok(FlatFunc {
        name: Name::from_bytes(Vec::from_slice(alloc, name.as_bytes())?).ok_or("no name")?,
        args: Items::from_slice(alloc, args)?,
        results: Items::from_slice(alloc, results)?,
        names: 32,
        body,
    })
}

fn one(alloc: Global, s: Stmt) -> Result<Items<Stmt>, Fail> {
    let mut body = Items::new(alloc);
    body.push(s)?;
    Ok(body)
}

fn two(alloc: Global, first: Stmt, second: Stmt) -> Result<Items<Stmt>, Fail> {
    let mut body = one(alloc, first)?;
    body.push(second)?;
    Ok(body)
}

fn buffer(alloc: Global, x: u32, n: u32) -> Stmt {
    Stmt::Stackalloc(x, n, Items::new(alloc))
}

// What the functions need, where each calls functions of a higher rank alone.
fn needs_of(
    rt: &impl Abort,
    alloc: Global,
    funcs: Items<FlatFunc>,
    ranks: &[u32],
) -> Result<Vec<u32>, Fail> {
    let p = FlatProgram { funcs };
    let form = is_register_form(&p);
    assert!(rt; form, "no register form");
    let rise = calls_rise(alloc, &p, ranks)?;
    assert!(rt; rise, "a call to no higher rank");
    Ok(needs(alloc, &p)?)
}

// A function with two arguments and a result, whose names are 10 and 11 and those of its body.
fn need_of(rt: &impl Abort, alloc: Global, body: Items<Stmt>) -> Result<u32, Fail> {
    let mut funcs = Items::new(alloc);
    funcs.push(function(alloc, "f", &[10, 11], &[10], body)?)?;
    let needs = needs_of(rt, alloc, funcs, &[0])?;
    Ok(needs.get(0).copied().ok_or("no need")?)
}

#[test]
fn names_and_buffers(rt: HostRuntime) -> Result<(), Fail> {
    let alloc = rt.alloc();
    let nested = Stmt::Stackalloc(
        3,
        16,
        two(alloc, buffer(alloc, 4, 8), buffer(alloc, 4, 24))?,
    );
    let branches = Stmt::If(
        Cond::Compare(Rel::Ltu, 3, 4),
        one(alloc, buffer(alloc, 5, 12))?,
        one(alloc, buffer(alloc, 5, 20))?,
    );
    let turns = Stmt::Loop(
        one(alloc, buffer(alloc, 5, 12))?,
        Cond::NonZero(6),
        one(alloc, buffer(alloc, 5, 4))?,
    );
    let rows = [
        (Stmt::Lit(10, 7), 12),
        (Stmt::Lit(3, 7), 16),
        (Stmt::Copy(3, 4), 20),
        (Stmt::Op(3, BinOp::Add, 4, Operand::Name(5)), 24),
        (Stmt::Op(3, BinOp::Add, 3, Operand::Name(3)), 16),
        (Stmt::Op(3, BinOp::Add, 4, Operand::Const(5)), 20),
        (Stmt::Load(3, Size::Two, 4, 5), 20),
        (Stmt::Store(Size::Two, 3, 4, 5), 20),
        (
            Stmt::Table(3, Size::One, Items::from_slice(alloc, &[5])?, 4),
            20,
        ),
        (Stmt::Read(3, 4), 20),
        (Stmt::Write(3, 4), 20),
        (buffer(alloc, 3, 0), 16),
        (buffer(alloc, 3, 8), 24),
        (nested, 60),
        (branches, 44),
        (turns, 32),
    ];
    for (s, expected) in rows {
        let body = one(alloc, s)?;
        assert_eq!(rt; need_of(&rt, alloc, body)?, expected);
    }
    let beside = two(alloc, buffer(alloc, 3, 8), buffer(alloc, 3, 4))?;
    assert_eq!(rt; need_of(&rt, alloc, beside)?, 24);
    let mut every = Items::new(alloc);
    for x in 3..32 {
        every.push(Stmt::Lit(x, 0))?;
    }
    assert_eq!(rt; need_of(&rt, alloc, every)?, 120);
    Ok(())
}

#[test]
fn greatest_needs(rt: HostRuntime) -> Result<(), Fail> {
    let alloc = rt.alloc();
    for (n, expected) in [
        (4_294_967_276, 4_294_967_292),
        (4_294_967_280, u32::MAX),
        (4_294_967_292, u32::MAX),
    ] {
        let body = one(alloc, buffer(alloc, 3, n))?;
        assert_eq!(rt; need_of(&rt, alloc, body)?, expected);
    }
    let inner = one(alloc, buffer(alloc, 3, 2_147_483_648))?;
    let body = one(alloc, Stmt::Stackalloc(3, 2_147_483_648, inner))?;
    assert_eq!(rt; need_of(&rt, alloc, body)?, u32::MAX);
    Ok(())
}

fn call(alloc: Global, g: u32) -> Stmt {
    Stmt::Call(Items::new(alloc), g, Items::new(alloc))
}

// A function that calls two others.
fn caller(alloc: Global, name: &str, first: u32, second: u32) -> Result<FlatFunc, Fail> {
    let body = two(alloc, call(alloc, first), call(alloc, second))?;
    function(alloc, name, &[], &[], body)
}

fn with_buffer(alloc: Global, name: &str, n: u32) -> Result<FlatFunc, Fail> {
    function(alloc, name, &[], &[], one(alloc, buffer(alloc, 3, n))?)
}

#[test]
fn chains_of_callees(rt: HostRuntime) -> Result<(), Fail> {
    let alloc = rt.alloc();
    let none = needs_of(&rt, alloc, Items::new(alloc), [].as_slice())?;
    assert_eq!(rt; none.len(), 0);

    // each calls the next
    let mut down = Items::new(alloc);
    down.push(caller(alloc, "a", 1, 1)?)?;
    down.push(caller(alloc, "b", 2, 2)?)?;
    down.push(caller(alloc, "c", 3, 3)?)?;
    down.push(with_buffer(alloc, "d", 100)?)?;
    let needs = needs_of(&rt, alloc, down, [0, 1, 2, 3].as_slice())?;
    assert_eq!(rt; needs.as_slice(), [120, 116, 112, 108].as_slice());

    // each calls the one before it
    let mut up = Items::new(alloc);
    up.push(with_buffer(alloc, "a", 100)?)?;
    up.push(caller(alloc, "b", 0, 0)?)?;
    up.push(caller(alloc, "c", 1, 1)?)?;
    up.push(caller(alloc, "d", 2, 2)?)?;
    let needs = needs_of(&rt, alloc, up, [3, 2, 1, 0].as_slice())?;
    assert_eq!(rt; needs.as_slice(), [108, 112, 116, 120].as_slice());
    Ok(())
}

#[test]
fn callees_in_two_ways(rt: HostRuntime) -> Result<(), Fail> {
    let alloc = rt.alloc();
    let mut both = Items::new(alloc);
    both.push(caller(alloc, "a", 1, 2)?)?;
    both.push(caller(alloc, "b", 3, 4)?)?;
    both.push(caller(alloc, "c", 4, 3)?)?;
    both.push(with_buffer(alloc, "d", 40)?)?;
    both.push(with_buffer(alloc, "e", 80)?)?;
    let needs = needs_of(&rt, alloc, both, [0, 1, 1, 2, 2].as_slice())?;
    assert_eq!(rt; needs.as_slice(), [96, 92, 92, 48, 88].as_slice());
    Ok(())
}

#[test]
fn callees_inside_buffers(rt: HostRuntime) -> Result<(), Fail> {
    let alloc = rt.alloc();
    for (n, expected) in [
        (294_967_276, [4_294_967_292, 294_967_284]),
        (294_967_280, [u32::MAX, 294_967_288]),
    ] {
        let inside = one(alloc, call(alloc, 1))?;
        let body = one(alloc, Stmt::Stackalloc(3, 4_000_000_000, inside))?;
        let mut funcs = Items::new(alloc);
        funcs.push(function(alloc, "a", [].as_slice(), [].as_slice(), body)?)?;
        funcs.push(with_buffer(alloc, "b", n)?)?;
        let needs = needs_of(&rt, alloc, funcs, [0, 1].as_slice())?;
        assert_eq!(rt; needs.as_slice(), expected.as_slice(), "{n}");
    }
    Ok(())
}
