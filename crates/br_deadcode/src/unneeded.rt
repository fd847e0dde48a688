// Statements that only write names which no statement that stays can need, whatever the order.

ghost use Rattle.std.specs.Prelude.{◌≡◌, IfOk, IsTrue};
ghost use Rattle.std.specs.List.{list_all};
ghost use Rattle.br_flatimp.specs.Parts.{operand_names, test_names};
ghost use Rattle.br_flatimp.specs.Refines.{Refines, meaning};
ghost use Rattle.br_flatimp.specs.Sizes.{Kept};
ghost use Rattle.br_flatimp.specs.WellFormed.{IsWellFormed};
ghost use Rattle.br_deadcode.specs.LeftOut.{HasSameOthers, InPairs, MissesNoMore};
ghost use Rattle.br_deadcode.specs.Sweeps.{idle};
ghost use Rattle.br_deadcode.specs.Unneeded.{IsTrimmed, is_closed, is_closed_function};
ghost use Rattle.br_deadcode.specs.Unneeded.{listed, trim, trimmed};

use crate::copies::copy;
use crate::needed::needed_names;
use br_base::NoMemory;
use br_flatimp::{Cond, FlatFunc, FlatProgram, Operand, Stmt};
use sqlite_items::Items;
use std::alloc::Global;

/// A program without the statements that write a name which no statement that stays can need, all
/// at once. Where a value goes from name to name around a loop and none of them is needed, all of
/// these statements go, of which a sweep would find only the last.
pub(crate) fn remove_unneeded(alloc: Global, p: FlatProgram) -> Result<FlatProgram, NoMemory>
    requires { IsWellFormed p.funcs }
    ensures well_formed { IfOk result (λ q. IsWellFormed q.funcs) }
    ensures refines { IfOk result (λ q. Refines (meaning q.funcs) (meaning p.funcs)) }
    ensures kept { IfOk result (λ q. Kept q.funcs p.funcs) }
    ensures others_stay { IfOk result (λ q. InPairs HasSameOthers q.funcs p.funcs) }
    ensures missed { IfOk result (λ q. InPairs MissesNoMore q.funcs p.funcs) }
{
    let funcs = trim_functions(alloc, p.funcs.as_slice())?;
    Ok(FlatProgram { funcs })
}

fn trim_functions(alloc: Global, fs: &[FlatFunc]) -> Result<Items<FlatFunc>, NoMemory>
    ensures { IfOk result (λ qs. InPairs IsTrimmed qs fs.now) }
{
    let mut made = Items::new(alloc);
    for f in fs {
        made.push(trim_function(alloc, f)?)?;
    }
    Ok(made)
}

// A function without the statements that write a name which is not needed, by names alone. A set of
// bits says which names are needed. It is checked, and where it would not do, all are.
fn trim_function(alloc: Global, f: &FlatFunc) -> Result<FlatFunc, NoMemory>
    ensures { IfOk result (λ q. IsTrimmed q f.now) }
{
    let bits = checked_bits(alloc, needed_names(alloc, f)?, f);
    let body = trim_all(alloc, bits.as_slice(), f.body.as_slice())?;
    Ok(FlatFunc {
        name: f.name.copy()?,
        args: Items::from_slice(alloc, f.args.as_slice())?,
        results: Items::from_slice(alloc, f.results.as_slice())?,
        names: f.names,
        body,
    })
}

// The set where it holds all that is needed, and else that of all names.
#[tactic(auto, using(crate::proofs::Closed::every_closed))]
fn checked_bits(alloc: Global, bits: Vec<bool>, f: &FlatFunc) -> Vec<bool>
    ensures { IsTrue (is_closed_function (listed result.items) f.now) }
{
    if is_closed_function(bits.as_slice(), f) {
        bits
    } else {
        Vec::new(alloc)
    }
}

// Whether a name is in the set. One that the bits do not reach is.
fn has(bits: &[bool], x: u32) -> bool
    ensures { result ≡ listed bits.now x }
{
    match bits.get(x as usize) {
        Some(b) => *b,
        None => true,
    }
}

fn has_all(bits: &[bool], xs: &[u32]) -> bool
    ensures { result ≡ list_all (listed bits.now) xs.now }
{
    xs.iter().all(|x| has(bits, *x))
}

fn has_operand(bits: &[bool], z: Operand) -> bool
    ensures { result ≡ list_all (listed bits.now) (operand_names z) }
{
    match z {
        Operand::Name(y) => has(bits, y),
        Operand::Const(_) => true,
    }
}

fn has_test(bits: &[bool], test: Cond) -> bool
    ensures { result ≡ list_all (listed bits.now) (test_names test) }
{
    match test {
        Cond::NonZero(y) => has(bits, y),
        Cond::Compare(_, y, z) => has(bits, y) && has(bits, z),
    }
}

// ---- whether a set holds all that is needed

fn is_closed_function(bits: &[bool], f: &FlatFunc) -> bool
    ensures { result ≡ is_closed_function (listed bits.now) f.now }
{
    has_all(bits, f.results.as_slice()) && are_closed(bits, f.body.as_slice())
}

#[cycle(closed)]
fn are_closed(bits: &[bool], body: &[Stmt]) -> bool
    ensures { result ≡ list_all (is_closed (listed bits.now)) body.now }
{
    for s in body {
        if !is_closed(bits, s) {
            return false;
        }
    }
    true
}

#[cycle(closed)]
#[tactic(auto, using(crate::proofs::Closed::closes))]
fn is_closed(bits: &[bool], s: &Stmt) -> bool
    ensures { result ≡ is_closed (listed bits.now) s.now }
{
    match s {
        Stmt::Lit(_, _) => true,
        Stmt::Copy(x, y) | Stmt::Load(x, _, y, _) | Stmt::Table(x, _, _, y) => {
            !has(bits, *x) || has(bits, *y)
        }
        Stmt::Op(x, _, y, z) => !has(bits, *x) || (has(bits, *y) && has_operand(bits, *z)),
        Stmt::Store(_, y, z, _) | Stmt::Write(y, z) => has(bits, *y) && has(bits, *z),
        Stmt::Read(_, y) => has(bits, *y),
        Stmt::Call(_, _, ys) => has_all(bits, ys.as_slice()),
        Stmt::Stackalloc(_, _, body) => are_closed(bits, body.as_slice()),
        Stmt::If(test, first, second) => {
            if !has_test(bits, *test) {
                return false;
            }
            if !are_closed(bits, first.as_slice()) {
                return false;
            }
            are_closed(bits, second.as_slice())
        }
        Stmt::Loop(first, test, last) => {
            if !has_test(bits, *test) {
                return false;
            }
            if !are_closed(bits, first.as_slice()) {
                return false;
            }
            are_closed(bits, last.as_slice())
        }
    }
}

// ---- what is left

// Whether a statement only writes a name that is not in the set.
#[tactic(auto, using(crate::proofs::Idle::idles))]
fn is_unneeded(bits: &[bool], s: &Stmt) -> bool
    ensures { result ≡ idle s.now (listed bits.now) }
{
    match s {
        Stmt::Lit(x, _)
        | Stmt::Copy(x, _)
        | Stmt::Op(x, _, _, _)
        | Stmt::Load(x, _, _, _)
        | Stmt::Table(x, _, _, _) => !has(bits, *x),
        Stmt::Store(_, _, _, _)
        | Stmt::Stackalloc(_, _, _)
        | Stmt::If(_, _, _)
        | Stmt::Loop(_, _, _)
        | Stmt::Call(_, _, _)
        | Stmt::Read(_, _)
        | Stmt::Write(_, _) => false,
    }
}

#[cycle(trim)]
fn trim_all(alloc: Global, bits: &[bool], body: &[Stmt]) -> Result<Items<Stmt>, NoMemory>
    ensures { IfOk result (λ left. left ≡ trimmed (listed bits.now) body.now) }
{
    let mut made = Items::new(alloc);
    for s in body {
        match trim_one(alloc, bits, s)? {
            Some(left) => made.push(left)?,
            None => {}
        }
    }
    Ok(made)
}

#[cycle(trim)]
fn trim_one(alloc: Global, bits: &[bool], s: &Stmt) -> Result<Option<Stmt>, NoMemory>
    ensures { IfOk result (λ left. left ≡ trim (listed bits.now) s.now) }
{
    if is_unneeded(bits, s) {
        return Ok(None);
    }
    match s {
        Stmt::Stackalloc(x, n, body) => {
            let body = trim_all(alloc, bits, body.as_slice())?;
            Ok(Some(Stmt::Stackalloc(*x, *n, body)))
        }
        Stmt::If(test, first, second) => {
            let first = trim_all(alloc, bits, first.as_slice())?;
            let second = trim_all(alloc, bits, second.as_slice())?;
            Ok(Some(Stmt::If(*test, first, second)))
        }
        Stmt::Loop(first, test, last) => {
            let first = trim_all(alloc, bits, first.as_slice())?;
            let last = trim_all(alloc, bits, last.as_slice())?;
            Ok(Some(Stmt::Loop(first, *test, last)))
        }
        Stmt::Lit(_, _)
        | Stmt::Copy(_, _)
        | Stmt::Op(_, _, _, _)
        | Stmt::Load(_, _, _, _)
        | Stmt::Store(_, _, _, _)
        | Stmt::Table(_, _, _, _)
        | Stmt::Call(_, _, _)
        | Stmt::Read(_, _)
        | Stmt::Write(_, _) => Ok(Some(copy(alloc, s)?)),
    }
}
