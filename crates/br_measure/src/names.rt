// The lowest fault of the names in a program.

ghost use Rattle.std.specs.Prelude.{◌≡◌, [], ◌∷◌, Some, IfOk, map, slice_get, take};
ghost use Rattle.br_measure.specs.Names.{joined, count_faults, action_faults, call_faults};
ghost use Rattle.br_measure.specs.Names.{command_faults, commands_faults, duplicates_after};
ghost use Rattle.br_measure.specs.Names.{name_faults};
ghost use Rattle.br_measure.specs.Lowest.{lowest};
ghost use Rattle.br_syntax.specs.Functions.{function_named};

use crate::faults::NameFault;
use crate::lowest::lower;
use br_base::{Name, NoMemory};
use br_numbering::Index;
use br_syntax::{Cmd, Func};
use std::alloc::Global;

/// The functions by name, and the lowest fault of a name in them.
#[tactic(auto, using(crate::proofs::LowestParts::lowests))]
pub fn read_names<'a>(
    alloc: Global,
    funcs: &'a [Func],
) -> Result<(Index<'a>, Option<NameFault>), NoMemory>
    ensures functions { IfOk result (λ r. r.0.funcs.now ≡ funcs.now) }
    ensures fault { IfOk result (λ r. r.1 ≡ lowest (name_faults funcs.now)) }
{
    let index = Index::new(alloc, funcs)?;
    let fault = lower(duplicates(&index), bodies(&index));
    Ok((index, fault))
}

// The lowest fault of a name that an earlier function has.
fn duplicates(index: &Index) -> Option<NameFault>
    ensures { result ≡ lowest (duplicates_after [] index.now.funcs.now) }
{
    let mut fault = None;
    for (i, f) in index.funcs.iter().enumerate() {
        fault = lower(fault, duplicate(index, i, f));
    }
    fault
}

// The fault of the name of a function at its place, where an earlier one has it.
fn duplicate(index: &Index, i: usize, f: &Func) -> Option<NameFault>
    requires { slice_get index.now.funcs.now i ≡ Some f.now }
    ensures { result ≡ lowest (duplicates_after (take i index.now.funcs.now) (f.now ∷ [])) }
{
    match index.number(f.name.bytes()) {
        Some(first) => {
            if first < i {
                Some(NameFault::DuplicateFunction(f.at))
            } else {
                None
            }
        }
        None => None,
    }
}

#[tactic(auto, using(crate::proofs::LowestParts::lowests))]
fn bodies(index: &Index) -> Option<NameFault>
    ensures { result ≡ lowest
        (joined (map (λ f. commands_faults index.now.funcs.now f.body) index.now.funcs.now)) }
{
    let mut fault = None;
    for f in index.funcs {
        fault = lower(fault, commands(index, f.body.as_slice()));
    }
    fault
}

#[cycle(names)]
#[tactic(auto, using(crate::proofs::LowestParts::lowests))]
fn commands(index: &Index, cs: &[Cmd]) -> Option<NameFault>
    ensures { result ≡ lowest (commands_faults index.now.funcs.now cs.now) }
{
    let mut fault = None;
    for c in cs {
        fault = lower(fault, command(index, c));
    }
    fault
}

#[cycle(names)]
#[tactic(auto, using(crate::proofs::LowestParts::lowests))]
fn command(index: &Index, c: &Cmd) -> Option<NameFault>
    ensures { result ≡ lowest (command_faults index.now.funcs.now c.now) }
{
    match c {
        Cmd::Stackalloc(_, _, body) | Cmd::While(_, body) | Cmd::Seq(body) => {
            commands(index, body.as_slice())
        }
        Cmd::If(_, first, second) => lower(
            commands(index, first.as_slice()),
            commands(index, second.as_slice()),
        ),
        Cmd::Call {
            at,
            results,
            callee,
            args,
        } => call(index, *at, args.len(), results.len(), callee),
        Cmd::Interact {
            at,
            results,
            action,
            args,
        } => interaction(*at, args.len(), results.len(), action),
        Cmd::Skip | Cmd::Set(_, _) | Cmd::Unset(_) | Cmd::Store(_, _, _) => None,
    }
}

// A call with these numbers of arguments and results.
fn call(index: &Index, at: u32, args: usize, results: usize, callee: &Name) -> Option<NameFault>
    ensures { result ≡ lowest
        (call_faults at args results (function_named index.now.funcs.now callee.now)) }
{
    match index.function(callee.bytes()) {
        Some(f) => counts(at, f.args.len(), f.results.len(), args, results),
        None => Some(NameFault::UnknownFunction(at)),
    }
}

// An interaction with these numbers of arguments and results.
fn interaction(at: u32, args: usize, results: usize, action: &Name) -> Option<NameFault>
    ensures { result ≡ lowest (action_faults at args results action.now) }
{
    let action = action.bytes();
    if action == b"MMIOREAD".as_slice() {
        counts(at, 1, 1, args, results)
    } else if action == b"MMIOWRITE".as_slice() {
        counts(at, 2, 0, args, results)
    } else {
        Some(NameFault::UnknownAction(at))
    }
}

// Numbers of arguments and results where others are wanted.
fn counts(
    at: u32,
    wanted_args: usize,
    wanted_results: usize,
    args: usize,
    results: usize,
) -> Option<NameFault>
    ensures { result ≡ lowest (count_faults at wanted_args wanted_results args results) }
{
    if args != wanted_args {
        Some(NameFault::WrongArguments(at))
    } else if results != wanted_results {
        Some(NameFault::WrongResults(at))
    } else {
        None
    }
}
