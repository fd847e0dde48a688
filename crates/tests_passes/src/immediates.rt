// Constants in place of names that literals set.

use br_base::Name;
use br_flatimp::{Cond, FlatFunc, FlatProgram, Operand, Stmt, well_formed};
use br_immediates::use_immediates;
use br_words::{BinOp, Size};
use sqlite_items::Items;
use std::alloc::Global;
use std::process::Abort;
use std::test::Fail;

fn function(alloc: Global, name: &str, body: Items<Stmt>) -> Result<FlatFunc, Fail> {
    Ok(FlatFunc {
        name: Name::from_bytes(Vec::from_slice(alloc, name.as_bytes())?).ok_or("no name")?,
        args: Items::new(alloc),
        results: Items::new(alloc),
        names: 3,
        body,
    })
}

// What is the operand of an operation, where a literal set the name 1 that was its operand,
// and another statement stands between.
fn operand_after(
    rt: &impl Abort,
    alloc: Global,
    word: u32,
    between: Stmt,
    op: BinOp,
) -> Result<Option<Operand>, Fail> {
    let mut body = Items::new(alloc);
    body.push(Stmt::Lit(1, word))?;
    body.push(between)?;
    body.push(Stmt::Op(2, op, 0, Operand::Name(1)))?;
    let mut funcs = Items::new(alloc);
    funcs.push(function(alloc, "f", body)?)?;
    funcs.push(function(alloc, "g", Items::new(alloc))?)?;
    let p = FlatProgram { funcs };
    let formed = well_formed(&p);
    assert!(rt; formed, "not well formed");
    let made = use_immediates(alloc, p)?;
    let f = made.funcs.as_slice().first().ok_or("no function")?;
    match f.body.as_slice().last() {
        Some(Stmt::Op(_, _, _, z)) => Ok(Some(*z)),
        _ => Ok(None),
    }
}

// Immediates have twelve bits and a sign, a difference is the sum with the opposite
// number, and a shift is by fewer than 32 bits. What a call or a statement with
// parts leaves of a name is not looked for.
#[test]
fn constants_stand_for_names(rt: HostRuntime) -> Result<(), Fail> {
    let alloc = rt.alloc();
    let name = Operand::Name(1);
    let operations = [
        (BinOp::Add, 2047, Operand::Const(2047)),
        (BinOp::Add, 2048, name),
        (BinOp::And, 0xffff_f800, Operand::Const(-2048)),
        (BinOp::Eq, 0xffff_f7ff, name),
        (BinOp::Sub, 2048, Operand::Const(2048)),
        (BinOp::Sub, 0xffff_f801, Operand::Const(-2047)),
        (BinOp::Sub, 0xffff_f800, name),
        (BinOp::Slu, 31, Operand::Const(31)),
        (BinOp::Srs, 32, name),
        (BinOp::Sru, 0xffff_ffff, name),
        (BinOp::Mul, 5, name),
    ];
    for (op, word, wanted) in operations {
        let made = operand_after(&rt, alloc, word, Stmt::Write(0, 0), op)?;
        assert_eq!(rt; made, Some(wanted));
    }
    let mut part = Items::new(alloc);
    part.push(Stmt::Lit(1, 7))?;
    let call = Stmt::Call(Items::new(alloc), 1, Items::new(alloc));
    let turns = Stmt::Loop(Items::new(alloc), Cond::NonZero(0), Items::new(alloc));
    let between = [
        (Stmt::Store(Size::Four, 0, 1, 0), Operand::Const(5)),
        (Stmt::Read(0, 0), Operand::Const(5)),
        (Stmt::Read(1, 0), name),
        (call, name),
        (turns, name),
        (Stmt::If(Cond::NonZero(0), part, Items::new(alloc)), name),
    ];
    for (s, wanted) in between {
        assert_eq!(rt; operand_after(&rt, alloc, 5, s, BinOp::Add)?, Some(wanted));
    }
    Ok(())
}
