// Trees as functions and programs.

ghost use Rattle.std.specs.Prelude.{◌≡◌, IfOk, IfErr};
ghost use Rattle.br_base.specs.Faults.{IfFault};
ghost use Rattle.br_syntax.specs.Denotes.{function, function_list, function_of};
ghost use Rattle.br_syntax.specs.Denotes.{functions, Denotes, IsShapeFault};

use crate::command::commands;
use crate::faults::ShapeFault;
use crate::part::{name, names};
use crate::program::{Func, Program};
use crate::shaped::{Shaped, both, push};
use crate::word::{offset, word};
use br_base::{NoMemory, OrMemory};
use br_sexpr::Tree;
use sqlite_items::Items;
use std::alloc::Global;

/// The program that trees stand for: one function a tree. A fault is the lowest of all faults of
/// shape in the trees.
#[tactic(auto, using(crate::proofs::Kept::denoted_is_shaped))]
pub fn from_tree(alloc: Global, trees: &[Tree]) -> Result<Program, OrMemory<ShapeFault>>
    ensures denotes { IfOk result (λ p. Denotes trees.now p.funcs) }
    ensures fault { IfErr result (λ e. IfFault e (λ fault. IsShapeFault trees.now fault)) }
{
    match functions(alloc, trees)? {
        Ok(funcs) => Ok(Program { funcs }),
        Err(fault) => Err(OrMemory::Fault(fault)),
    }
}

#[tactic(auto, using(crate::proofs::Joined::joins))]
fn functions(alloc: Global, trees: &[Tree]) -> Result<Shaped<Items<Func>>, NoMemory>
    ensures { IfOk result (λ r. r ≡ functions trees.now) }
{
    let mut found = Ok(Items::new(alloc));
    for tree in trees {
        found = push(found, function(alloc, tree)?)?;
    }
    Ok(found)
}

// A place that asks for a function.
fn function(alloc: Global, tree: &Tree) -> Result<Shaped<Func>, NoMemory>
    ensures { IfOk result (λ r. r ≡ function tree.now) }
{
    match tree {
        Tree::List { at, items } => function_list(alloc, *at, items.as_slice()),
        Tree::Name { at, .. } | Tree::Number { at, .. } => Ok(Err(ShapeFault::BadForm(*at))),
    }
}

#[tactic(auto, using(crate::proofs::Lists::lists))]
fn function_list(alloc: Global, at: u32, items: &[Tree]) -> Result<Shaped<Func>, NoMemory>
    ensures { IfOk result (λ r. r ≡ function_list at items.now) }
{
    match items {
        [head, called, args, results, body @ ..] => {
            if word(head) == b"fn".as_slice() {
                function_of(alloc, called, args, results, body)
            } else {
                Ok(Err(ShapeFault::BadForm(at)))
            }
        }
        _ => Ok(Err(ShapeFault::BadForm(at))),
    }
}

fn function_of(
    alloc: Global,
    called: &Tree,
    args: &Tree,
    results: &Tree,
    body: &[Tree],
) -> Result<Shaped<Func>, NoMemory>
    ensures { IfOk result (λ r. r ≡ function_of called.now args.now results.now body.now) }
{
    let front = both(name(called)?, names(alloc, args)?);
    let back = both(names(alloc, results)?, commands(alloc, body)?);
    match both(front, back) {
        Ok(((name, args), (results, body))) => Ok(Ok(Func {
            at: offset(called),
            name,
            args,
            results,
            body,
        })),
        Err(fault) => Ok(Err(fault)),
    }
}
