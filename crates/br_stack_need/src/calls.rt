// Which functions call which, by number.

ghost use Rattle.std.specs.Prelude.{◌≡◌, ℕ, List, ◌++◌, map, IfOk, OnOk};
ghost use Rattle.std.specs.List.{flat_map};
ghost use Rattle.br_flatimp.specs.Parts.{callees, gathered, own_callees};

use br_base::NoMemory;
use br_flatimp::{FlatFunc, Stmt};
use sqlite_items::Items;
use std::alloc::Global;

/// For each function the numbers of the functions that it calls, in the order of its calls.
pub fn call_table(alloc: Global, funcs: &[FlatFunc]) -> Result<Items<Items<u32>>, NoMemory>
    ensures { IfOk result (λ t. t ≡ map callees funcs.now) }
{
    let mut table = Items::new(alloc);
    for f in funcs {
        table.push(callees(alloc, f)?)?;
    }
    Ok(table)
}

fn callees(alloc: Global, f: &FlatFunc) -> Result<Items<u32>, NoMemory>
    ensures { IfOk result (λ ns. ns ≡ callees f.now) }
{
    let mut found = Items::new(alloc);
    add_calls(f.body.as_slice(), &mut found)?;
    Ok(found)
}

#[cycle(calls)]
fn add_calls(body: &[Stmt], found: &mut Items<u32>) -> Result<(), NoMemory>
    ensures { OnOk result (found.new ≡ found.old ++ flat_map (gathered own_callees) body.now) }
{
    for s in body {
        add_call(s, found)?;
    }
    Ok(())
}

#[cycle(calls)]
fn add_call(s: &Stmt, found: &mut Items<u32>) -> Result<(), NoMemory>
    ensures { OnOk result (found.new ≡ found.old ++ gathered own_callees s.now) }
{
    match s {
        Stmt::Stackalloc(_, _, body) => add_calls(body.as_slice(), found),
        Stmt::If(_, first, second) | Stmt::Loop(first, _, second) => {
            add_calls(first.as_slice(), found)?;
            add_calls(second.as_slice(), found)?;
            Ok(())
        }
        Stmt::Call(_, g, _) => {
            found.push(*g)?;
            Ok(())
        }
        Stmt::Lit(_, _)
        | Stmt::Copy(_, _)
        | Stmt::Op(_, _, _, _)
        | Stmt::Load(_, _, _, _)
        | Stmt::Store(_, _, _, _)
        | Stmt::Table(_, _, _, _)
        | Stmt::Read(_, _)
        | Stmt::Write(_, _) => Ok(()),
    }
}
