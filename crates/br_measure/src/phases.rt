// The rules on a program, one after the other.

ghost use Rattle.std.specs.Prelude.{◌≡◌, ℕ, ◌<◌, ◌≤◌, List, Some, None, min, map, length, nat_lt};
ghost use Rattle.std.specs.Prelude.{IfOk};
ghost use Rattle.std.specs.List.{position};
ghost use Rattle.br_syntax.specs.declared.program.Func.{Func};
ghost use Rattle.br_syntax.specs.Shape.{IsShaped};
ghost use Rattle.br_measure.specs.Bulk.{bulk, largest_bulk};
ghost use Rattle.br_measure.specs.Measure.{measure};
ghost use Rattle.br_syntax.specs.NameFaults.{HasNoNameFault};
ghost use Rattle.br_measure.specs.Paths.{HasNoRecursion};
ghost use Rattle.br_measure.specs.Table.{call_table};
ghost use Rattle.br_measure.specs.Faults.{IsFault, IsSound};
ghost use Rattle.br_measure.specs.Examination.{IsExamined};

use crate::calls::call_table;
use crate::faults::NameFault;
use crate::measures::measures;
use crate::names::read_names;
use crate::paths::first_recursive;
use br_base::NoMemory;
use br_numbering::Index;
use br_syntax::Func;
use sqlite_items::Items;
use std::alloc::Global;

/// The largest bulk of a program.
const LARGEST_BULK: u32 = 32768;

/// The most bytes of stack that a function may need.
const LARGEST_MEASURE: u32 = 1048576;

/// What was found of a program: the measures of its functions, or its fault.
#[derive(Drop)]
pub enum Examined {
    Sound(Items<u32>),
    Faulty(NameFault),
}

/// Examines functions of this bulk.
pub fn examine(alloc: Global, funcs: &[Func], total: u32) -> Result<Examined, NoMemory>
    requires shaped { IsShaped funcs.now }
    requires total { total ≡ min (bulk funcs.now) 4294967295 }
    ensures { IfOk result (λ found. IsExamined funcs.now found) }
{
    let (index, fault) = read_names(alloc, funcs)?;
    match fault {
        Some(fault) => Ok(Examined::Faulty(fault)),
        None => {
            if total > LARGEST_BULK {
                Ok(Examined::Faulty(NameFault::TooLarge(total)))
            } else {
                examine_calls(alloc, &index)
            }
        }
    }
}

// Examines functions that keep the rules on names and bulk.
fn examine_calls(alloc: Global, index: &Index) -> Result<Examined, NoMemory>
    requires shaped { IsShaped index.now.funcs.now }
    requires names { HasNoNameFault index.now.funcs.now }
    requires small { bulk index.now.funcs.now ≤ largest_bulk }
    ensures { IfOk result (λ found. IsExamined index.now.funcs.now found) }
{
    let table = call_table(alloc, index)?;
    match first_recursive(alloc, table.as_slice())? {
        Some(f) => Ok(Examined::Faulty(NameFault::Recursion(f as u32))),
        None => examine_stack(alloc, index.funcs, table.as_slice()),
    }
}

// Examines functions that keep all rules but that on the stack.
fn examine_stack(
    alloc: Global,
    funcs: &[Func],
    table: &[Items<usize>],
) -> Result<Examined, NoMemory>
    requires shaped { IsShaped funcs.now }
    requires names { HasNoNameFault funcs.now }
    requires small { bulk funcs.now ≤ largest_bulk }
    requires no_recursion { HasNoRecursion funcs.now }
    requires table { table.now ≡ call_table funcs.now }
    ensures { IfOk result (λ found. IsExamined funcs.now found) }
{
    let measures = measures(alloc, funcs, table)?;
    match first_above(measures.as_slice()) {
        Some(f) => {
            let need = measures.as_slice()[f];
            Ok(Examined::Faulty(NameFault::StackTooDeep(f as u32, need)))
        }
        None => Ok(Examined::Sound(measures)),
    }
}

// The place of the first measure above the limit.
fn first_above(measures: &[u32]) -> Option<usize>
    ensures { result ≡ position (λ m. nat_lt 1048576 m) measures.now }
{
    measures.iter().position(|m| *m > LARGEST_MEASURE)
}
