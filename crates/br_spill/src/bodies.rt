// The statements in register form of statements.

ghost use Rattle.std.specs.Prelude.{◌≡◌, [], ◌∷◌, ◌++◌, true, map, nat_lt, OnOk};
ghost use Rattle.std.specs.List.{list_all};
ghost use Rattle.br_flatimp.specs.Parts.{throughout};
ghost use Rattle.br_flatimp.specs.declared.program.Stmt.TheVariants.{Call, Lit, Load, Op, Read};
ghost use Rattle.br_flatimp.specs.declared.program.Stmt.TheVariants.{Store, Table, Write};
ghost use Rattle.br_spill.specs.Spill.{IsNear, bring, bring_operand, bring_test, joined, keep};
ghost use Rattle.br_spill.specs.Spill.{layout_in, operand_at, spilled, test_at, words_fit};

use crate::moves::{OTHER_SPARE, SPARE, at, bring, copy, keep};
use crate::passing::{passes, registers, takes};
use crate::place::{Place, Places, place_of};
use br_base::NoMemory;
use br_flatimp::{Cond, Operand, Stmt};
use br_words::{BinOp, Size};
use sqlite_items::Items;
use std::alloc::Global;

/// Adds the statements in register form of statements in turn of a function with such places.
#[cycle(statement)]
pub(crate) fn statements(
    alloc: Global,
    places: Places,
    body: &[Stmt],
    out: &mut Items<Stmt>,
) -> Result<(), NoMemory>
    ensures code { OnOk result
        (out.new ≡ out.old ++ joined (map (spilled (layout_in places)) body.now)) }
    ensures words { OnOk result (list_all (throughout words_fit) body.now ≡ true) }
{
    for s in body {
        statement(alloc, places, s, out)?;
    }
    Ok(())
}

#[cycle(statement)]
#[tactic(auto, using(crate::proofs::Parts::words))]
fn statement(alloc: Global, places: Places, s: &Stmt, out: &mut Items<Stmt>) -> Result<(), NoMemory>
    ensures code { OnOk result (out.new ≡ out.old ++ spilled (layout_in places) s.now) }
    ensures words { OnOk result (throughout words_fit s.now ≡ true) }
{
    match s {
        Stmt::Lit(x, n) => {
            lit(places, *x, *n, out)?;
        }
        Stmt::Copy(x, y) => {
            copy(place_of(places, *x), place_of(places, *y), out)?;
        }
        Stmt::Op(x, op, y, z) => {
            operation(places, *x, *op, *y, *z, out)?;
        }
        Stmt::Load(x, size, y, offset) => {
            load(places, *x, *size, *y, *offset, out)?;
        }
        Stmt::Store(size, y, z, offset) => {
            store(places, *size, *y, *z, *offset, out)?;
        }
        Stmt::Table(x, size, bytes, y) => {
            table(alloc, places, *x, *size, bytes.as_slice(), *y, out)?;
        }
        Stmt::Stackalloc(x, n, body) => {
            let to = place_of(places, *x);
            let mut inner = Items::new(alloc);
            keep(to, &mut inner)?;
            statements(alloc, places, body.as_slice(), &mut inner)?;
            out.push(Stmt::Stackalloc(at(to, SPARE), *n, inner))?;
        }
        Stmt::If(test, first, second) => {
            bring_test(places, *test, out)?;
            let mut taken = Items::new(alloc);
            statements(alloc, places, first.as_slice(), &mut taken)?;
            let mut other = Items::new(alloc);
            statements(alloc, places, second.as_slice(), &mut other)?;
            out.push(Stmt::If(test_at(places, *test), taken, other))?;
        }
        Stmt::Loop(first, test, last) => {
            let mut opening = Items::new(alloc);
            statements(alloc, places, first.as_slice(), &mut opening)?;
            bring_test(places, *test, &mut opening)?;
            let mut turn = Items::new(alloc);
            statements(alloc, places, last.as_slice(), &mut turn)?;
            out.push(Stmt::Loop(opening, test_at(places, *test), turn))?;
        }
        Stmt::Call(xs, g, ys) => {
            call(alloc, places, xs.as_slice(), *g, ys.as_slice(), out)?;
        }
        Stmt::Read(x, y) => {
            read(places, *x, *y, out)?;
        }
        Stmt::Write(y, z) => {
            write(places, *y, *z, out)?;
        }
    }
    Ok(())
}

// ---- operands and tests

fn bring_operand(places: Places, z: Operand, out: &mut Items<Stmt>) -> Result<(), NoMemory>
    ensures { OnOk result (out.new ≡ out.old ++ bring_operand (layout_in places) z) }
{
    match z {
        Operand::Name(y) => bring(place_of(places, y), OTHER_SPARE, out),
        Operand::Const(_) => Ok(()),
    }
}

fn operand_at(places: Places, z: Operand) -> Operand
    ensures { result ≡ operand_at (layout_in places) z }
{
    match z {
        Operand::Name(y) => Operand::Name(at(place_of(places, y), OTHER_SPARE)),
        Operand::Const(c) => Operand::Const(c),
    }
}

fn bring_test(places: Places, test: Cond, out: &mut Items<Stmt>) -> Result<(), NoMemory>
    ensures { OnOk result (out.new ≡ out.old ++ bring_test (layout_in places) test) }
{
    match test {
        Cond::NonZero(y) => bring(place_of(places, y), SPARE, out),
        Cond::Compare(_, y, z) => {
            bring(place_of(places, y), SPARE, out)?;
            bring(place_of(places, z), OTHER_SPARE, out)
        }
    }
}

fn test_at(places: Places, test: Cond) -> Cond
    ensures { result ≡ test_at (layout_in places) test }
{
    match test {
        Cond::NonZero(y) => Cond::NonZero(at(place_of(places, y), SPARE)),
        Cond::Compare(rel, y, z) => Cond::Compare(
            rel,
            at(place_of(places, y), SPARE),
            at(place_of(places, z), OTHER_SPARE),
        ),
    }
}

// ---- statements without parts

// A statement that reads one word at most and writes one.
fn around(from: Place, s: Stmt, to: Place, out: &mut Items<Stmt>) -> Result<(), NoMemory>
    requires from { IsNear from }
    requires to { IsNear to }
    ensures { OnOk result (out.new ≡ out.old ++ (bring from 4 ++ s ∷ keep to)) }
{
    bring(from, SPARE, out)?;
    out.push(s)?;
    keep(to, out)
}

// A statement that reads two words and writes none.
fn after_two(first: Place, second: Place, s: Stmt, out: &mut Items<Stmt>) -> Result<(), NoMemory>
    requires first { IsNear first }
    requires second { IsNear second }
    ensures { OnOk result (out.new ≡ out.old ++ (bring first 4 ++ (bring second 5 ++ s ∷ []))) }
{
    bring(first, SPARE, out)?;
    bring(second, OTHER_SPARE, out)?;
    out.push(s)?;
    Ok(())
}

#[tactic(auto, using(crate::proofs::Codes::codes))]
fn lit(places: Places, x: u32, n: u32, out: &mut Items<Stmt>) -> Result<(), NoMemory>
    ensures { OnOk result (out.new ≡ out.old ++ spilled (layout_in places) (Lit x n)) }
{
    let to = place_of(places, x);
    out.push(Stmt::Lit(at(to, SPARE), n))?;
    keep(to, out)
}

#[tactic(auto, using(crate::proofs::Codes::codes))]
fn operation(
    places: Places,
    x: u32,
    op: BinOp,
    y: u32,
    z: Operand,
    out: &mut Items<Stmt>,
) -> Result<(), NoMemory>
    ensures { OnOk result (out.new ≡ out.old ++ spilled (layout_in places) (Op x op y z)) }
{
    let to = place_of(places, x);
    let from = place_of(places, y);
    bring(from, SPARE, out)?;
    bring_operand(places, z, out)?;
    out.push(Stmt::Op(at(to, SPARE), op, at(from, SPARE), operand_at(places, z)))?;
    keep(to, out)
}

#[tactic(auto, using(crate::proofs::Codes::codes))]
fn load(
    places: Places,
    x: u32,
    size: Size,
    y: u32,
    offset: i32,
    out: &mut Items<Stmt>,
) -> Result<(), NoMemory>
    ensures { OnOk result (out.new ≡ out.old ++ spilled (layout_in places) (Load x size y offset)) }
{
    let to = place_of(places, x);
    let from = place_of(places, y);
    around(
        from,
        Stmt::Load(at(to, SPARE), size, at(from, SPARE), offset),
        to,
        out,
    )
}

#[tactic(auto, using(crate::proofs::Codes::codes))]
fn store(
    places: Places,
    size: Size,
    y: u32,
    z: u32,
    offset: i32,
    out: &mut Items<Stmt>,
) -> Result<(), NoMemory>
    ensures { OnOk result
        (out.new ≡ out.old ++ spilled (layout_in places) (Store size y z offset)) }
{
    let address = place_of(places, y);
    let value = place_of(places, z);
    let s = Stmt::Store(size, at(address, SPARE), at(value, OTHER_SPARE), offset);
    after_two(address, value, s, out)
}

#[tactic(auto, using(crate::proofs::Codes::codes))]
fn table(
    alloc: Global,
    places: Places,
    x: u32,
    size: Size,
    bytes: &[u8],
    y: u32,
    out: &mut Items<Stmt>,
) -> Result<(), NoMemory>
    ensures code { OnOk result
        (out.new ≡ out.old ++ spilled (layout_in places) (Table x size bytes.now y)) }
    ensures words { list_all (λ b. nat_lt b 256) bytes.now ≡ true }
{
    are_bytes(bytes);
    let to = place_of(places, x);
    let from = place_of(places, y);
    let bytes = Items::from_slice(alloc, bytes)?;
    around(
        from,
        Stmt::Table(at(to, SPARE), size, bytes, at(from, SPARE)),
        to,
        out,
    )
}

// Each byte of a table is one, by its type.
fn are_bytes(bytes: &[u8])
    ensures { list_all (λ b. nat_lt b 256) bytes.now ≡ true }
{
    let _bytes = bytes;
}

#[tactic(auto, using(crate::proofs::Codes::codes))]
fn call(
    alloc: Global,
    places: Places,
    xs: &[u32],
    g: u32,
    ys: &[u32],
    out: &mut Items<Stmt>,
) -> Result<(), NoMemory>
    ensures { OnOk result (out.new ≡ out.old ++ spilled (layout_in places) (Call xs.now g ys.now)) }
{
    let to = registers(alloc, xs.len())?;
    let from = registers(alloc, ys.len())?;
    passes(places, ys, out)?;
    out.push(Stmt::Call(to, g, from))?;
    takes(places, xs, out)
}

#[tactic(auto, using(crate::proofs::Codes::codes))]
fn read(places: Places, x: u32, y: u32, out: &mut Items<Stmt>) -> Result<(), NoMemory>
    ensures { OnOk result (out.new ≡ out.old ++ spilled (layout_in places) (Read x y)) }
{
    let to = place_of(places, x);
    let from = place_of(places, y);
    around(from, Stmt::Read(at(to, SPARE), at(from, SPARE)), to, out)
}

#[tactic(auto, using(crate::proofs::Codes::codes))]
fn write(places: Places, y: u32, z: u32, out: &mut Items<Stmt>) -> Result<(), NoMemory>
    ensures { OnOk result (out.new ≡ out.old ++ spilled (layout_in places) (Write y z)) }
{
    let address = place_of(places, y);
    let value = place_of(places, z);
    let s = Stmt::Write(at(address, SPARE), at(value, OTHER_SPARE));
    after_two(address, value, s, out)
}
