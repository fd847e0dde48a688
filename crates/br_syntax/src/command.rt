// Trees as commands.

ghost use Rattle.std.specs.Prelude.{◌≡◌, IfOk, map};
ghost use Rattle.br_syntax.specs.Denotes.{Places, places, with_places, command, command_of};
ghost use Rattle.br_syntax.specs.Denotes.{form_of, skip_of, set_of, unset_of, store_of};
ghost use Rattle.br_syntax.specs.Denotes.{stackalloc_of, if_of, while_of, seq_of, call_of};
ghost use Rattle.br_syntax.specs.Denotes.{interact_of, target_of, behind_of, commands};

use crate::expression::{arguments, expression};
use crate::faults::ShapeFault;
use crate::part::{buffer_size, name, names};
use crate::program::{Cmd, Expr};
use crate::shaped::{Shaped, both, push};
use crate::word::{CmdWord, cmd_word, offset, word};
use br_base::{Name, NoMemory};
use br_sexpr::Tree;
use br_words::Size;
use sqlite_items::Items;
use std::alloc::Global;

/// A place that asks for a command.
#[cycle(command)]
#[tactic(auto, using(crate::proofs::Equations::commands))]
pub fn command(alloc: Global, tree: &Tree) -> Result<Shaped<Cmd>, NoMemory>
    ensures { IfOk result (λ r. r ≡ command tree.now) }
{
    match tree {
        Tree::List { at, items } => command_of(alloc, *at, items.as_slice()),
        Tree::Name { at, .. } | Tree::Number { at, .. } => Ok(Err(ShapeFault::BadForm(*at))),
    }
}

// The command in a list of these items.
#[cycle(command)]
#[tactic(auto, using(crate::proofs::Lists::lists))]
fn command_of(alloc: Global, at: u32, items: &[Tree]) -> Result<Shaped<Cmd>, NoMemory>
    ensures { IfOk result (λ r. r ≡ command_of at (map with_places items.now)) }
{
    match items {
        [head, parts @ ..] => form_of(alloc, at, cmd_word(word(head)), parts),
        [] => Ok(Err(ShapeFault::BadForm(at))),
    }
}

// The command that begins with this word and has these parts.
#[cycle(command)]
fn form_of(
    alloc: Global,
    at: u32,
    first: Option<CmdWord>,
    parts: &[Tree],
) -> Result<Shaped<Cmd>, NoMemory>
    ensures { IfOk result (λ r. r ≡ form_of at first (map with_places parts.now)) }
{
    match first {
        Some(CmdWord::Skip) => Ok(skip(at, parts)),
        Some(CmdWord::Set) => set(alloc, at, parts),
        Some(CmdWord::Unset) => unset(at, parts),
        Some(CmdWord::Store(size)) => store(alloc, at, size, parts),
        Some(CmdWord::Stackalloc) => stackalloc(alloc, at, parts),
        Some(CmdWord::If) => choice(alloc, at, parts),
        Some(CmdWord::While) => repetition(alloc, at, parts),
        Some(CmdWord::Seq) => sequence(alloc, parts),
        Some(CmdWord::Call) => call(alloc, at, parts),
        Some(CmdWord::Interact) => interact(alloc, at, parts),
        None => Ok(Err(ShapeFault::BadForm(at))),
    }
}

#[tactic(auto, using(crate::proofs::Lists::lists))]
fn skip(at: u32, parts: &[Tree]) -> Shaped<Cmd>
    ensures { result ≡ skip_of at (map with_places parts.now) }
{
    if parts.is_empty() {
        Ok(Cmd::Skip)
    } else {
        Err(ShapeFault::BadForm(at))
    }
}

#[tactic(auto, using(crate::proofs::Lists::lists))]
fn set(alloc: Global, at: u32, parts: &[Tree]) -> Result<Shaped<Cmd>, NoMemory>
    ensures { IfOk result (λ r. r ≡ set_of at (map with_places parts.now)) }
{
    match parts {
        [variable, value] => match both(name(variable)?, expression(alloc, value)?) {
            Ok((variable, value)) => Ok(Ok(Cmd::Set(variable, value))),
            Err(fault) => Ok(Err(fault)),
        },
        _ => Ok(Err(ShapeFault::BadForm(at))),
    }
}

#[tactic(auto, using(crate::proofs::Lists::lists))]
fn unset(at: u32, parts: &[Tree]) -> Result<Shaped<Cmd>, NoMemory>
    ensures { IfOk result (λ r. r ≡ unset_of at (map with_places parts.now)) }
{
    match parts {
        [variable] => match name(variable)? {
            Ok(variable) => Ok(Ok(Cmd::Unset(variable))),
            Err(fault) => Ok(Err(fault)),
        },
        _ => Ok(Err(ShapeFault::BadForm(at))),
    }
}

#[tactic(auto, using(crate::proofs::Lists::lists))]
fn store(alloc: Global, at: u32, size: Size, parts: &[Tree]) -> Result<Shaped<Cmd>, NoMemory>
    ensures { IfOk result (λ r. r ≡ store_of at size (map with_places parts.now)) }
{
    match parts {
        [address, value] => match both(expression(alloc, address)?, expression(alloc, value)?) {
            Ok((address, value)) => Ok(Ok(Cmd::Store(size, address, value))),
            Err(fault) => Ok(Err(fault)),
        },
        _ => Ok(Err(ShapeFault::BadForm(at))),
    }
}

#[cycle(command)]
#[tactic(auto, using(crate::proofs::Lists::lists))]
fn stackalloc(alloc: Global, at: u32, parts: &[Tree]) -> Result<Shaped<Cmd>, NoMemory>
    ensures { IfOk result (λ r. r ≡ stackalloc_of at (map with_places parts.now)) }
{
    match parts {
        [variable, size, body @ ..] => {
            let front = both(name(variable)?, buffer_size(size));
            match both(front, commands(alloc, body)?) {
                Ok(((variable, size), body)) => Ok(Ok(Cmd::Stackalloc(variable, size, body))),
                Err(fault) => Ok(Err(fault)),
            }
        }
        _ => Ok(Err(ShapeFault::BadForm(at))),
    }
}

#[cycle(command)]
#[tactic(auto, using(crate::proofs::Lists::lists))]
fn choice(alloc: Global, at: u32, parts: &[Tree]) -> Result<Shaped<Cmd>, NoMemory>
    ensures { IfOk result (λ r. r ≡ if_of at (map with_places parts.now)) }
{
    match parts {
        [test, yes, no] => {
            let front = both(expression(alloc, test)?, branch(alloc, b"then", yes)?);
            match both(front, branch(alloc, b"else", no)?) {
                Ok(((test, yes), no)) => Ok(Ok(Cmd::If(test, yes, no))),
                Err(fault) => Ok(Err(fault)),
            }
        }
        _ => Ok(Err(ShapeFault::BadForm(at))),
    }
}

#[cycle(command)]
#[tactic(auto, using(crate::proofs::Lists::lists))]
fn repetition(alloc: Global, at: u32, parts: &[Tree]) -> Result<Shaped<Cmd>, NoMemory>
    ensures { IfOk result (λ r. r ≡ while_of at (map with_places parts.now)) }
{
    match parts {
        [test, body @ ..] => match both(expression(alloc, test)?, commands(alloc, body)?) {
            Ok((test, body)) => Ok(Ok(Cmd::While(test, body))),
            Err(fault) => Ok(Err(fault)),
        },
        [] => Ok(Err(ShapeFault::BadForm(at))),
    }
}

#[cycle(command)]
#[tactic(auto, using(crate::proofs::Lists::lists))]
fn sequence(alloc: Global, parts: &[Tree]) -> Result<Shaped<Cmd>, NoMemory>
    ensures { IfOk result (λ r. r ≡ seq_of (map with_places parts.now)) }
{
    match commands(alloc, parts)? {
        Ok(body) => Ok(Ok(Cmd::Seq(body))),
        Err(fault) => Ok(Err(fault)),
    }
}

// The results, the name and the arguments of a call or an interaction.
type Target = ((Items<Name>, Name), Items<Expr>);

#[tactic(auto, using(crate::proofs::Lists::lists, crate::proofs::Equations::trees_with_places))]
fn call(alloc: Global, at: u32, parts: &[Tree]) -> Result<Shaped<Cmd>, NoMemory>
    ensures { IfOk result (λ r. r ≡ call_of at (map with_places parts.now)) }
{
    match parts {
        [results, callee, args @ ..] => match target(alloc, results, callee, args)? {
            Ok(((results, name), args)) => Ok(Ok(Cmd::Call {
                at: offset(callee),
                results,
                callee: name,
                args,
            })),
            Err(fault) => Ok(Err(fault)),
        },
        _ => Ok(Err(ShapeFault::BadForm(at))),
    }
}

#[tactic(auto, using(crate::proofs::Lists::lists, crate::proofs::Equations::trees_with_places))]
fn interact(alloc: Global, at: u32, parts: &[Tree]) -> Result<Shaped<Cmd>, NoMemory>
    ensures { IfOk result (λ r. r ≡ interact_of at (map with_places parts.now)) }
{
    match parts {
        [results, action, args @ ..] => match target(alloc, results, action, args)? {
            Ok(((results, name), args)) => Ok(Ok(Cmd::Interact {
                at: offset(action),
                results,
                action: name,
                args,
            })),
            Err(fault) => Ok(Err(fault)),
        },
        _ => Ok(Err(ShapeFault::BadForm(at))),
    }
}

fn target(
    alloc: Global,
    results: &Tree,
    called: &Tree,
    args: &[Tree],
) -> Result<Shaped<Target>, NoMemory>
    ensures { IfOk result (λ r. r ≡ target_of results.now called.now args.now) }
{
    let front = both(names(alloc, results)?, name(called)?);
    Ok(both(front, arguments(alloc, args)?))
}

// A place that asks for commands after this word.
#[cycle(command)]
#[tactic(auto, using(crate::proofs::Equations::commands))]
fn branch(alloc: Global, first: &[u8], tree: &Tree) -> Result<Shaped<Items<Cmd>>, NoMemory>
    ensures { IfOk result (λ r. r ≡ (places tree.now).behind first.now) }
{
    match tree {
        Tree::List { at, items } => behind(alloc, *at, first, items.as_slice()),
        Tree::Name { at, .. } | Tree::Number { at, .. } => Ok(Err(ShapeFault::BadForm(*at))),
    }
}

#[cycle(command)]
#[tactic(auto, using(crate::proofs::Lists::lists))]
fn behind(
    alloc: Global,
    at: u32,
    first: &[u8],
    items: &[Tree],
) -> Result<Shaped<Items<Cmd>>, NoMemory>
    ensures { IfOk result (λ r. r ≡ behind_of at (map with_places items.now) first.now) }
{
    match items {
        [head, body @ ..] => {
            if word(head) == first {
                commands(alloc, body)
            } else {
                Ok(Err(ShapeFault::BadForm(at)))
            }
        }
        [] => Ok(Err(ShapeFault::BadForm(at))),
    }
}

/// Places that ask for commands.
#[cycle(command)]
#[tactic(auto, using(crate::proofs::Joined::joins))]
pub fn commands(alloc: Global, trees: &[Tree]) -> Result<Shaped<Items<Cmd>>, NoMemory>
    ensures { IfOk result (λ r. r ≡ commands trees.now) }
{
    let mut found = Ok(Items::new(alloc));
    for tree in trees {
        found = push(found, command(alloc, tree)?)?;
    }
    Ok(found)
}
