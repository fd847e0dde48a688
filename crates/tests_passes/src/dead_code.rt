// What is left after constants have taken the places of names and dead statements are gone.

use br_base::Name;
use br_deadcode::remove_dead;
use br_flatimp::{Cond, FlatFunc, FlatProgram, Operand, Stmt, well_formed};
use br_flatten::flatten;
use br_immediates::use_immediates;
use br_measure::check;
use br_sexpr::{MOST_BYTES, read};
use br_syntax::from_tree;
use br_words::{BinOp, Size};
use sqlite_items::Items;
use std::alloc::Global;
use std::process::Abort;
use std::test::Fail;

// What is left of the body of the first function.
fn left_of(alloc: Global, text: &str) -> Result<Items<Stmt>, Fail> {
    if text.len() > MOST_BYTES {
        return Err("a long text".into());
    }
    let program = from_tree(alloc, read(alloc, text.as_bytes())?.as_slice())?;
    let flat = flatten(alloc, &check(alloc, program)?)?;
    let mut q = remove_dead(alloc, use_immediates(alloc, flat)?)?;
    Ok(q.funcs.pop().ok_or("no function")?.body)
}

// The literal and the last command go with the names that they write.
#[test]
fn names_that_are_not_read(rt: HostRuntime) -> Result<(), Fail> {
    let text = "(fn main (a) (r) (set d 9) (set r (add a d)) (set d (mul r r)))";
    let body = left_of(rt.alloc(), text)?;
    let [Stmt::Op(_, BinOp::Add, _, z)] = body.as_slice() else {
        panic!(rt; "one operation");
    };
    assert_eq!(rt; *z, Operand::Const(9));
    Ok(())
}

// The first sum is dead, and each 9 and 5 fits an operation.
#[test]
fn a_dead_sum_and_a_constant(rt: HostRuntime) -> Result<(), Fail> {
    let text = "(fn main (a) (r) (set d (add a 9)) (set r (add a 5)))";
    let body = left_of(rt.alloc(), text)?;
    let [Stmt::Op(_, BinOp::Add, _, z)] = body.as_slice() else {
        panic!(rt; "one operation");
    };
    assert_eq!(rt; *z, Operand::Const(5));
    Ok(())
}

// A loop stays, though nothing reads what it computes.
#[test]
fn a_loop_that_computes_nothing(rt: HostRuntime) -> Result<(), Fail> {
    let body = left_of(rt.alloc(), "(fn main (n) () (while n (set n (sub n 1))))")?;
    let [Stmt::Loop(_, _, last)] = body.as_slice() else {
        panic!(rt; "one loop");
    };
    assert_eq!(rt; last.len(), 1);
    Ok(())
}

// How many statements are left where a literal sets the name 1, and an operation after another
// statement reads it for the result, and which operand that has.
fn left_before(rt: &impl Abort, alloc: Global, between: Stmt) -> Result<(usize, Operand), Fail> {
    let mut body = Items::new(alloc);
    body.push(Stmt::Lit(1, 5))?;
    body.push(between)?;
    body.push(Stmt::Op(2, BinOp::Add, 0, Operand::Name(1)))?;
    let mut funcs = Items::new(alloc);
    funcs.push(FlatFunc {
        name: Name::from_bytes(Vec::from_slice(alloc, b"g")?).ok_or("no name")?,
        args: Items::new(alloc),
        results: Items::new(alloc),
        names: 0,
        body: Items::new(alloc),
    })?;
    funcs.push(FlatFunc {
        name: Name::from_bytes(Vec::from_slice(alloc, b"f")?).ok_or("no name")?,
        args: Items::from_slice(alloc, &[0])?,
        results: Items::from_slice(alloc, &[2])?,
        names: 3,
        body,
    })?;
    let p = FlatProgram { funcs };
    let formed = well_formed(&p);
    assert!(rt; formed, "not well formed");
    let mut q = remove_dead(alloc, use_immediates(alloc, p)?)?;
    let body = q.funcs.pop().ok_or("no function")?.body;
    match body.as_slice().last() {
        Some(Stmt::Op(_, _, _, z)) => Ok((body.as_slice().len(), *z)),
        _ => Err("no operation".into()),
    }
}

// The literal goes where its constant stands for the name, unless another statement reads the
// name too. It stays before a call and a loop, after which constants do not stand for names,
// and before a part of a conditional that writes the name again. Where a statement surely does
// that the literal goes, and its constant does not come to stand for the name. A dead
// statement that stands between goes too.
#[test]
fn literals_before_statements(rt: HostRuntime) -> Result<(), Fail> {
    let alloc = rt.alloc();
    let call = Stmt::Call(Items::new(alloc), 0, Items::new(alloc));
    let turns = Stmt::Loop(Items::new(alloc), Cond::NonZero(0), Items::new(alloc));
    let mut part = Items::new(alloc);
    part.push(Stmt::Lit(1, 5))?;
    let choice = Stmt::If(Cond::NonZero(0), part, Items::new(alloc));
    let kinds = [
        (Stmt::Store(Size::Four, 0, 0, 0), 2, Operand::Const(5)),
        (Stmt::Store(Size::Four, 0, 1, 0), 3, Operand::Const(5)),
        (Stmt::Copy(2, 0), 1, Operand::Const(5)),
        (Stmt::Lit(1, 6), 1, Operand::Const(6)),
        (Stmt::Lit(1, 5000), 2, Operand::Name(1)),
        (Stmt::Read(1, 0), 2, Operand::Name(1)),
        (call, 3, Operand::Name(1)),
        (turns, 3, Operand::Name(1)),
        (choice, 3, Operand::Name(1)),
    ];
    for (between, count, operand) in kinds {
        assert_eq!(rt; left_before(&rt, alloc, between)?, (count, operand));
    }
    Ok(())
}
