// What sets of bits and tables of them answer, beside sets that were written by hand.

use crate::{BitSet, LiveTable, live_after, names_are_below};
use br_base::Name;
use br_flatimp::{Cond, FlatFunc, FlatProgram, Operand, Rel, Stmt, well_formed};
use br_words::{BinOp, Size};
use sqlite_items::Items;
use std::alloc::Global;
use std::process::Abort;
use std::test::Fail;

#[test]
fn sets_of_bits(rt: HostRuntime) -> Result<(), Fail> {
    let mut s = BitSet::new(rt.alloc(), 70)?;
    s.insert(0);
    s.insert(69);
    s.remove(0);
    assert_eq!(rt; s.words(), [0, 0, 32].as_slice());
    assert!(rt; s.contains(69) && !s.contains(0) && !s.contains(68));
    s.insert(31);
    s.insert(32);
    s.insert(63);
    s.insert(64);
    assert_eq!(rt; s.words(), [0x8000_0000, 0x8000_0001, 33].as_slice());
    s.remove(32);
    assert!(rt; s.contains(31) && !s.contains(32) && s.contains(63) && s.contains(64));
    let none = BitSet::new(rt.alloc(), 0)?;
    assert_eq!(rt; none.words().len(), 0);
    Ok(())
}

#[test]
fn two_sets(rt: HostRuntime) -> Result<(), Fail> {
    let mut low = BitSet::new(rt.alloc(), 70)?;
    low.insert(0);
    low.insert(31);
    low.insert(40);
    let mut high = BitSet::new(rt.alloc(), 70)?;
    high.insert(31);
    high.insert(32);
    high.insert(69);
    let mut both = low.copy(rt.alloc())?;
    assert!(rt; both.union_with(&high));
    assert!(rt; !both.union_with(&low));
    assert_eq!(rt; both.words(), [0x8000_0001, 0x101, 32].as_slice());
    both.subtract(&high);
    assert_eq!(rt; both.words(), [1, 0x100, 0].as_slice());
    both.keep_common(&low);
    assert_eq!(rt; both.words(), [1, 0x100, 0].as_slice());
    both.keep_common(&high);
    assert_eq!(rt; both.words(), [0, 0, 0].as_slice());
    Ok(())
}

#[test]
fn sets_by_statement(rt: HostRuntime) -> Result<(), Fail> {
    let mut sets = Vec::new(rt.alloc());
    sets.push(BitSet::new(rt.alloc(), 40)?)?;
    let mut second = BitSet::new(rt.alloc(), 40)?;
    second.insert(39);
    sets.push(second)?;
    let table = LiveTable::from_sets(sets);
    assert!(rt; !table.after(0, 39) && table.after(1, 39) && !table.after(1, 38));
    assert_eq!(rt; table.set(1).words(), [0, 128].as_slice());
    Ok(())
}

// One statement in a list.
fn one(alloc: Global, s: Stmt) -> Result<Items<Stmt>, Fail> {
    let mut body = Items::new(alloc);
    body.push(s)?;
    Ok(body)
}

// How many statements a function has at most.
const MOST: usize = 16;

// What is live after each statement of a function with eight names: bit x says of name x.
fn check(
    rt: &impl Abort,
    alloc: Global,
    results: &[u32],
    body: Items<Stmt>,
    expected: &[u32],
) -> Result<(), Fail> {
    names_are_below();
    let mut funcs = Items::new(alloc);
    funcs.push(FlatFunc {
        name: Name::from_bytes(Vec::from_slice(alloc, b"f")?).ok_or("no name")?,
        args: Items::from_slice(alloc, &[0, 3])?,
        results: Items::from_slice(alloc, results)?,
        names: 8,
        body,
    })?;
    let p = FlatProgram { funcs };
    let formed = well_formed(&p);
    if !formed {
        return Err("not well formed".into());
    }
    let [f] = p.funcs.as_slice() else {
        return Err("not one function".into());
    };
    let table = live_after(alloc, f)?;
    assert_eq!(rt; table.len(), expected.len());
    assert!(rt;
        expected.len() <= MOST,
        "more statements than are looked at"
    );
    for n in 0..MOST {
        if n < table.len() && n < expected.len() {
            assert_eq!(rt; table.set(n as u32).words(), [expected[n]].as_slice());
        }
    }
    Ok(())
}

#[test]
fn live_after_statements_in_turn(rt: HostRuntime) -> Result<(), Fail> {
    let alloc = rt.alloc();
    check(&rt, alloc, &[7], Items::new(alloc), &[])?;
    let mut straight = Items::new(alloc);
    straight.push(Stmt::Lit(1, 5))?;
    straight.push(Stmt::Op(2, BinOp::Add, 0, Operand::Name(1)))?;
    straight.push(Stmt::Op(2, BinOp::Sub, 2, Operand::Const(1)))?;
    straight.push(Stmt::Store(Size::Four, 0, 2, 0))?;
    straight.push(Stmt::Load(3, Size::Four, 0, 4))?;
    straight.push(Stmt::Table(4, Size::One, Items::from_slice(alloc, &[9])?, 3))?;
    straight.push(Stmt::Read(5, 4))?;
    straight.push(Stmt::Write(5, 4))?;
    let results = Items::from_slice(alloc, &[6])?;
    straight.push(Stmt::Call(results, 0, Items::from_slice(alloc, &[5, 6])?))?;
    straight.push(Stmt::Copy(7, 6))?;
    let expected = [0x43, 0x45, 0x45, 0x41, 0x48, 0x50, 0x70, 0x60, 0x40, 0x80];
    check(&rt, alloc, &[7], straight, &expected)
}

// The second part does not write 1, so the 1 of before may be read after it. The second choice has
// an empty part, through which what is live after it is live before it.
#[test]
fn live_after_a_choice(rt: HostRuntime) -> Result<(), Fail> {
    let alloc = rt.alloc();
    let mut choice = one(alloc, Stmt::Lit(1, 7))?;
    let first = one(alloc, Stmt::Lit(1, 1))?;
    let second = one(alloc, Stmt::Copy(2, 1))?;
    choice.push(Stmt::If(Cond::NonZero(0), first, second))?;
    choice.push(Stmt::Op(3, BinOp::Add, 1, Operand::Name(2)))?;
    let second = one(alloc, Stmt::Lit(3, 0))?;
    let test = Cond::Compare(Rel::Ges, 3, 4);
    choice.push(Stmt::If(test, Items::new(alloc), second))?;
    let expected = [0x17, 0x16, 0x16, 0x16, 0x18, 0x08, 0x08];
    check(&rt, alloc, &[3], choice, &expected)
}

// What the test and the last part read is live at the end of the first part. In the second function
// one loop stands in another, with nothing live after them.
#[test]
fn live_after_loops(rt: HostRuntime) -> Result<(), Fail> {
    let alloc = rt.alloc();
    let mut turns = one(alloc, Stmt::Lit(1, 0))?;
    let first = one(alloc, Stmt::Copy(2, 1))?;
    let last = one(alloc, Stmt::Op(1, BinOp::Add, 1, Operand::Name(3)))?;
    turns.push(Stmt::Loop(first, Cond::Compare(Rel::Ltu, 2, 0), last))?;
    check(&rt, alloc, &[2], turns, &[0b1011, 0b100, 0b1111, 0b1011])?;
    let first = one(alloc, Stmt::Lit(1, 1))?;
    let last = one(alloc, Stmt::Copy(0, 2))?;
    let mut inner = one(alloc, Stmt::Loop(first, Cond::NonZero(1), last))?;
    inner.push(Stmt::Copy(2, 3))?;
    let outer = Stmt::Loop(Items::new(alloc), Cond::NonZero(0), inner);
    check(
        &rt,
        alloc,
        &[],
        one(alloc, outer)?,
        &[0, 0b1001, 0b1111, 0b1101, 0b1101],
    )
}

// A buffer's name is live in its body and after it, and not before it.
#[test]
fn live_after_a_buffer(rt: HostRuntime) -> Result<(), Fail> {
    let alloc = rt.alloc();
    let mut buffer = one(alloc, Stmt::Lit(0, 3))?;
    let mut within = one(alloc, Stmt::Store(Size::Four, 1, 0, 0))?;
    within.push(Stmt::Load(2, Size::Four, 1, 0))?;
    buffer.push(Stmt::Stackalloc(1, 8, within))?;
    buffer.push(Stmt::Copy(3, 1))?;
    check(
        &rt,
        alloc,
        &[2, 3],
        buffer,
        &[0b1, 0b110, 0b10, 0b110, 0b1100],
    )
}
