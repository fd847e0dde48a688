// Which functions call which, by number.

ghost use Rattle.std.specs.Prelude.{◌≡◌, ℕ, List, ◌++◌, map, IfOk, OnOk};
ghost use Rattle.br_syntax.specs.declared.program.Cmd.TheFolds.{fold-Cmd};
ghost use Rattle.br_measure.specs.Paths.{callees, callees_step, joined};
ghost use Rattle.br_measure.specs.Table.{numbers_named, call_table};

use br_base::NoMemory;
use br_numbering::Index;
use br_syntax::{Cmd, Func};
use sqlite_items::Items;
use std::alloc::Global;

/// For each function the numbers of the functions that it calls, in the order of the text.
pub fn call_table(alloc: Global, index: &Index) -> Result<Items<Items<usize>>, NoMemory>
    ensures { IfOk result (λ t. t ≡ call_table index.now.funcs.now) }
{
    let mut table = Items::new(alloc);
    for f in index.funcs {
        table.push(callees(alloc, index, f)?)?;
    }
    Ok(table)
}

fn callees(alloc: Global, index: &Index, f: &Func) -> Result<Items<usize>, NoMemory>
    ensures { IfOk result (λ ns. ns ≡ numbers_named index.now.funcs.now (callees f.now)) }
{
    let mut found = Items::new(alloc);
    commands(index, f.body.as_slice(), &mut found)?;
    Ok(found)
}

#[cycle(calls)]
fn commands(index: &Index, cs: &[Cmd], found: &mut Items<usize>) -> Result<(), NoMemory>
    ensures { OnOk result (found.new
        ≡ found.old ++ numbers_named index.now.funcs.now
        (joined (map (fold-Cmd (List (List ℕ)) callees_step) cs.now))) }
{
    for c in cs {
        command(index, c, found)?;
    }
    Ok(())
}

#[cycle(calls)]
fn command(index: &Index, c: &Cmd, found: &mut Items<usize>) -> Result<(), NoMemory>
    ensures { OnOk result (found.new
        ≡ found.old ++ numbers_named index.now.funcs.now
        (fold-Cmd (List (List ℕ)) callees_step c.now)) }
{
    match c {
        Cmd::Stackalloc(_, _, body) | Cmd::While(_, body) | Cmd::Seq(body) => {
            commands(index, body.as_slice(), found)
        }
        Cmd::If(_, first, second) => {
            commands(index, first.as_slice(), found)?;
            commands(index, second.as_slice(), found)?;
            Ok(())
        }
        Cmd::Call { callee, .. } => {
            if let Some(n) = index.number(callee.bytes()) {
                found.push(n)?;
            }
            Ok(())
        }
        Cmd::Skip | Cmd::Set(_, _) | Cmd::Unset(_) | Cmd::Store(_, _, _) | Cmd::Interact { .. } =>
            Ok(()),
    }
}
