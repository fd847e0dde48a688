// Programs that break one rule each.

use br_base::Name;
use br_flatimp::{Cond, FlatFunc, FlatProgram, Operand, Rel, Stmt, well_formed};
use br_words::{BinOp, Size};
use sqlite_items::Items;
use std::alloc::Global;
use std::test::Fail;

// A function of four names, two arguments and two results.
fn function(alloc: Global, name: &str, body: Items<Stmt>) -> Result<FlatFunc, Fail> {
    Ok(FlatFunc {
        name: Name::from_bytes(Vec::from_slice(alloc, name.as_bytes())?).ok_or("no name")?,
        args: Items::from_slice(alloc, &[0, 1])?,
        results: Items::from_slice(alloc, &[2, 3])?,
        names: 4,
        body,
    })
}

fn one(alloc: Global, s: Stmt) -> Result<Items<Stmt>, Fail> {
    let mut body = Items::new(alloc);
    body.push(s)?;
    Ok(body)
}

// A function with this statement, and one that it may call.
fn program_with(alloc: Global, s: Stmt) -> Result<FlatProgram, Fail> {
    let mut funcs = Items::new(alloc);
    funcs.push(function(alloc, "f", one(alloc, s)?)?)?;
    funcs.push(function(alloc, "g", Items::new(alloc))?)?;
    Ok(FlatProgram { funcs })
}

fn call(alloc: Global, results: &[u32], g: u32, args: &[u32]) -> Result<Stmt, Fail> {
    let results = Items::from_slice(alloc, results)?;
    Ok(Stmt::Call(results, g, Items::from_slice(alloc, args)?))
}

// The statement in the parts of others.
fn within(alloc: Global, s: Stmt) -> Result<Stmt, Fail> {
    let body = one(alloc, s)?;
    let inner = Stmt::If(Cond::NonZero(0), Items::new(alloc), body);
    let inner = Stmt::Loop(
        Items::new(alloc),
        Cond::Compare(Rel::Ltu, 0, 1),
        one(alloc, inner)?,
    );
    Ok(Stmt::Stackalloc(3, 8, one(alloc, inner)?))
}

#[test]
fn statements_in_range(rt: HostRuntime) -> Result<(), Fail> {
    let alloc = rt.alloc();
    let rows = [
        (Stmt::Lit(3, u32::MAX), true),
        (Stmt::Lit(4, 0), false),
        (Stmt::Copy(0, 3), true),
        (Stmt::Copy(0, 4), false),
        (Stmt::Op(2, BinOp::Mul, 0, Operand::Name(1)), true),
        (Stmt::Op(2, BinOp::Mul, 0, Operand::Const(1)), false),
        (Stmt::Op(2, BinOp::Add, 0, Operand::Const(-2048)), true),
        (Stmt::Op(2, BinOp::Add, 0, Operand::Const(2048)), false),
        (Stmt::Op(2, BinOp::Sub, 0, Operand::Const(2048)), true),
        (Stmt::Op(2, BinOp::Sub, 0, Operand::Const(-2048)), false),
        (Stmt::Op(2, BinOp::Srs, 0, Operand::Const(31)), true),
        (Stmt::Op(2, BinOp::Slu, 0, Operand::Const(32)), false),
        (Stmt::Op(2, BinOp::Sru, 0, Operand::Const(-1)), false),
        (Stmt::Op(2, BinOp::Divu, 0, Operand::Const(1)), false),
        (Stmt::Load(0, Size::Two, 1, -2048), true),
        (Stmt::Load(0, Size::Two, 1, 2048), false),
        (Stmt::Store(Size::Four, 0, 1, 2047), true),
        (Stmt::Store(Size::Four, 0, 1, -2049), false),
        (Stmt::Table(2, Size::One, Items::new(alloc), 4), false),
        (Stmt::Stackalloc(3, 12, Items::new(alloc)), true),
        (Stmt::Stackalloc(3, 6, Items::new(alloc)), false),
        (Stmt::Read(0, 3), true),
        (Stmt::Write(4, 0), false),
        (call(alloc, &[3, 0], 1, &[0, 0])?, true),
        (call(alloc, &[3, 3], 1, &[0, 0])?, false),
        (call(alloc, &[3, 0], 2, &[0, 0])?, false),
        (call(alloc, &[3, 0], 1, &[0])?, false),
        (call(alloc, &[3], 1, &[0, 0])?, false),
        (call(alloc, &[3, 0], 1, &[0, 4])?, false),
        (within(alloc, Stmt::Lit(3, 0))?, true),
        (within(alloc, Stmt::Lit(4, 0))?, false),
    ];
    for (s, expected) in rows {
        let p = program_with(alloc, s)?;
        assert_eq!(rt; well_formed(&p), expected, "{p:?}");
    }
    Ok(())
}

#[test]
fn functions_in_range(rt: HostRuntime) -> Result<(), Fail> {
    let alloc = rt.alloc();
    let eight = [0, 1, 2, 3, 4, 5, 6, 7].as_slice();
    let nine = [0, 1, 2, 3, 4, 5, 6, 7, 8].as_slice();
    let none = [].as_slice();
    for (name, args, results, names, expected) in [
        ("f", eight, eight, 1_048_576, true),
        ("f", eight, eight, 1_048_577, false),
        ("g", eight, eight, 8, false),
        ("f", nine, none, 9, false),
        ("f", none, nine, 9, false),
        ("f", eight, none, 7, false),
        ("f", [3, 3].as_slice(), none, 4, false),
        ("f", none, [3, 0, 3].as_slice(), 4, false),
    ] {
        let f = FlatFunc {
            name: Name::from_bytes(Vec::from_slice(alloc, name.as_bytes())?).ok_or("no name")?,
            args: Items::from_slice(alloc, args)?,
            results: Items::from_slice(alloc, results)?,
            names,
            body: Items::new(alloc),
        };
        let mut funcs = Items::new(alloc);
        funcs.push(f)?;
        funcs.push(function(alloc, "g", Items::new(alloc))?)?;
        let p = FlatProgram { funcs };
        assert_eq!(rt; well_formed(&p), expected, "{name} {names}");
    }
    Ok(())
}
