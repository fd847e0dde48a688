// Which new names functions may take, and what becomes of programs that take them.

use br_base::Name;
use br_flatimp::{Cond, FlatFunc, FlatProgram, Operand, Proposal, Stmt, well_formed};
use br_live::{live_after, names_are_below};
use br_regalloc_check::{accepts, assign, has_few_statements, have_few_statements};
use br_regalloc_propose::propose_registers;
use br_words::{BinOp, Size};
use sqlite_items::Items;
use std::alloc::Global;
use std::process::Abort;
use std::test::Fail;

fn program(
    alloc: Global,
    args: &[u32],
    results: &[u32],
    names: u32,
    body: Items<Stmt>,
) -> Result<FlatProgram, Fail> {
    let mut funcs = Items::new(alloc);
    funcs.push(FlatFunc {
        name: Name::from_bytes(Vec::from_slice(alloc, b"f")?).ok_or("no name")?,
        args: Items::from_slice(alloc, args)?,
        results: Items::from_slice(alloc, results)?,
        names,
        body,
    })?;
    Ok(FlatProgram { funcs })
}

// The sum of a name and a constant.
fn plus(x: u32, y: u32, constant: i32) -> Stmt {
    Stmt::Op(x, BinOp::Add, y, Operand::Const(constant))
}

// Whether the only function of a program may take new names.
fn may_take(rt: &impl Abort, alloc: Global, p: &FlatProgram, to: &[u32]) -> Result<bool, Fail> {
    names_are_below();
    let formed = well_formed(p);
    assert!(rt; formed, "not well formed");
    let [f] = p.funcs.as_slice() else {
        panic!(rt; "one function");
    };
    let few = has_few_statements(f);
    assert!(rt; few, "too many statements");
    let live = live_after(alloc, f)?;
    let proposal = Proposal {
        to: Items::from_slice(alloc, to)?,
    };
    Ok(accepts(f, &live, &proposal))
}

fn assigned(
    rt: &impl Abort,
    alloc: Global,
    p: FlatProgram,
    proposals: &[Proposal],
) -> Result<FlatProgram, Fail> {
    let formed = well_formed(&p);
    assert!(rt; formed, "not well formed");
    let few = have_few_statements(&p);
    assert!(rt; few, "too many statements");
    assert!(rt; proposals.len() == p.funcs.len(), "one proposal");
    Ok(assign(alloc, p, proposals)?)
}

// Notes which registers stand in copies and operations, those in loops and conditionals too.
fn note(body: &[Stmt], used: &mut [bool]) {
    for s in body {
        match s {
            Stmt::Copy(x, y) => note_each(&[*x, *y], used),
            Stmt::Op(x, _, y, Operand::Name(z)) => note_each(&[*x, *y, *z], used),
            Stmt::Op(x, _, y, Operand::Const(_)) => note_each(&[*x, *y], used),
            Stmt::If(_, first, second) | Stmt::Loop(first, _, second) => {
                note(first.as_slice(), used);
                note(second.as_slice(), used);
            }
            _ => {}
        }
    }
}

fn note_each(xs: &[u32], used: &mut [bool]) {
    for x in xs {
        let x = *x as usize;
        if x < used.len() {
            used[x] = true;
        }
    }
}

// How many registers the only function of a program uses, with those that are proposed for it.
fn registers_of(rt: &impl Abort, alloc: Global, p: FlatProgram) -> Result<usize, Fail> {
    let proposals = propose_registers(alloc, &p)?;
    let made = assigned(rt, alloc, p, proposals.as_slice())?;
    let [f] = made.funcs.as_slice() else {
        panic!(rt; "one function");
    };
    assert!(rt; f.names <= 32, "a name has no register");
    let mut used = vec![in alloc; false; 32]?;
    note(f.body.as_slice(), used.as_mut_slice());
    Ok(used.iter().filter(|u| **u).count())
}

// Forty names, each a copy of the one before, and then forty that are each one more.
#[test]
fn a_chain_is_one_register_or_two(rt: HostRuntime) -> Result<(), Fail> {
    let alloc = rt.alloc();
    let mut copies = Items::new(alloc);
    let mut sums = Items::new(alloc);
    for k in 0..40u32 {
        copies.push(Stmt::Copy(33 + k, 32 + k))?;
        sums.push(plus(33 + k, 32 + k, 1))?;
    }
    for body in [copies, sums] {
        let p = program(alloc, &[32], &[72], 73, body)?;
        let registers = registers_of(&rt, alloc, p)?;
        assert!(rt; registers == 1 || registers == 2, "{registers} registers");
    }
    Ok(())
}

// Two words that are live together, and three that a loop exchanges through a fourth.
#[test]
fn names_that_are_live_together_stay_apart(rt: HostRuntime) -> Result<(), Fail> {
    let alloc = rt.alloc();
    let mut body = Items::new(alloc);
    body.push(plus(33, 32, 1))?;
    body.push(Stmt::Op(34, BinOp::Add, 32, Operand::Name(33)))?;
    let p = program(alloc, &[32], &[34], 35, body)?;
    assert!(rt; !may_take(&rt, alloc, &p, &[0; 35])?);
    assert_eq!(rt; registers_of(&rt, alloc, p)?, 2);
    let mut last = Items::new(alloc);
    last.push(Stmt::Copy(35, 33))?;
    last.push(Stmt::Copy(33, 34))?;
    last.push(Stmt::Copy(34, 35))?;
    last.push(plus(32, 32, -1))?;
    let mut body = Items::new(alloc);
    body.push(Stmt::Loop(Items::new(alloc), Cond::NonZero(32), last))?;
    let p = program(alloc, &[32, 33, 34], &[33, 34], 36, body)?;
    assert_eq!(rt; registers_of(&rt, alloc, p)?, 4);
    Ok(())
}

// In a loop that exchanges the names 1 and 2 through 3, the name 3 stays apart from 2, which is
// read after it is written, and from 1, which is written before it is read. The test reads 0.
#[test]
fn an_exchange_in_a_loop(rt: HostRuntime) -> Result<(), Fail> {
    let alloc = rt.alloc();
    let mut last = Items::new(alloc);
    last.push(Stmt::Copy(3, 1))?;
    last.push(Stmt::Copy(1, 2))?;
    last.push(Stmt::Copy(2, 3))?;
    last.push(plus(0, 0, -1))?;
    let mut body = Items::new(alloc);
    body.push(Stmt::Loop(Items::new(alloc), Cond::NonZero(0), last))?;
    let p = program(alloc, &[0, 1, 2], &[1, 2], 4, body)?;
    let rows = [
        ([0, 1, 2, 3], true),
        ([3, 0, 2, 1], true),
        ([0, 1, 2, 1], false),
        ([0, 1, 2, 2], false),
        ([0, 1, 2, 0], false),
        ([0, 1, 1, 3], false),
    ];
    for (to, want) in rows {
        assert_eq!(rt; may_take(&rt, alloc, &p, &to)?, want, "{to:?}");
    }
    Ok(())
}

// Names of the two parts of an `if` may share, with its test too, but not with a name that is read
// after both.
#[test]
fn names_in_parts_may_share(rt: HostRuntime) -> Result<(), Fail> {
    let alloc = rt.alloc();
    let mut first = Items::new(alloc);
    first.push(plus(2, 0, 1))?;
    first.push(Stmt::Op(4, BinOp::Mul, 2, Operand::Name(2)))?;
    let mut second = Items::new(alloc);
    second.push(plus(3, 0, 2))?;
    second.push(Stmt::Op(4, BinOp::Mul, 3, Operand::Name(3)))?;
    let mut body = Items::new(alloc);
    body.push(Stmt::If(Cond::NonZero(0), first, second))?;
    body.push(Stmt::Op(5, BinOp::Add, 4, Operand::Name(1)))?;
    let p = program(alloc, &[0, 1], &[5], 6, body)?;
    let rows = [
        ([0, 1, 2, 2, 2, 2], true),
        ([0, 1, 0, 0, 0, 0], true),
        ([0, 1, 0, 2, 3, 1], true),
        ([0, 1, 2, 1, 3, 4], false),
        ([0, 1, 1, 2, 3, 4], false),
        ([0, 1, 2, 3, 1, 4], false),
    ];
    for (to, want) in rows {
        assert_eq!(rt; may_take(&rt, alloc, &p, &to)?, want, "{to:?}");
    }
    Ok(())
}

// A buffer's name is written before its body runs, so it stays apart from a name that only the body
// reads, though nobody reads the buffer's name. There is one new name for each name, below their
// count.
#[test]
fn a_buffers_name_and_the_count(rt: HostRuntime) -> Result<(), Fail> {
    let alloc = rt.alloc();
    let mut inner = Items::new(alloc);
    inner.push(Stmt::Load(2, Size::Four, 0, 0))?;
    let mut body = Items::new(alloc);
    body.push(Stmt::Stackalloc(1, 4, inner))?;
    let p = program(alloc, &[0], &[2], 3, body)?;
    let rows = [
        ([0, 0, 1].as_slice(), false),
        ([0, 1, 1].as_slice(), true),
        ([0, 1, 0].as_slice(), true),
        ([0, 1].as_slice(), false),
        ([0, 1, 1, 1].as_slice(), false),
        ([0, 1, 3].as_slice(), false),
    ];
    for (to, want) in rows {
        assert_eq!(rt; may_take(&rt, alloc, &p, to)?, want, "{to:?}");
    }
    Ok(())
}

// New names that a function may not take leave it as it is: none, one for all, and too great ones.
#[test]
fn refused_names_change_nothing(rt: HostRuntime) -> Result<(), Fail> {
    let alloc = rt.alloc();
    for to in [
        [].as_slice(),
        [0; 9].as_slice(),
        [7, 8, 9, 0, 0, 0, 0, 0, 0].as_slice(),
    ] {
        let mut body = Items::new(alloc);
        body.push(Stmt::Op(2, BinOp::Add, 0, Operand::Name(1)))?;
        let p = program(alloc, &[0, 1], &[2], 9, body)?;
        let proposal = Proposal {
            to: Items::from_slice(alloc, to)?,
        };
        let made = assigned(&rt, alloc, p, &[proposal])?;
        let [f] = made.funcs.as_slice() else {
            panic!(rt; "one function");
        };
        assert_eq!(rt; f.names, 9);
        assert_eq!(rt; f.args.as_slice(), [0, 1].as_slice());
        assert_eq!(rt; f.results.as_slice(), [2].as_slice());
        let [Stmt::Op(2, BinOp::Add, 0, Operand::Name(1))] = f.body.as_slice() else {
            panic!(rt; "another statement");
        };
    }
    Ok(())
}
