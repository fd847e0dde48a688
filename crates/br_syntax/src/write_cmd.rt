// Commands as trees.

ghost use Rattle.std.specs.Prelude.{◌≡◌, IfOk, IsTrue, map};
ghost use Rattle.std.specs.List.{list_all};
ghost use Rattle.br_base.specs.Name.{IsName};
ghost use Rattle.br_syntax.specs.Shape.{is_shaped_command, is_buffer_size};
ghost use Rattle.br_syntax.specs.Shape.{are_names, are_arguments};
ghost use Rattle.br_syntax.specs.Denotes.{command, commands};
ghost use Rattle.br_syntax.specs.Writing.{IsBodyTree, IsTargetTree};
ghost use Rattle.br_syntax.specs.Offsets.{is_unplaced, unplaced, AreUnplaced};

use crate::program::{Cmd, Expr};
use crate::word::store_word;
use crate::write_expr::{expr_tree, expr_trees, form, name_tree, names_tree};
use br_base::{Name, NoMemory};
use br_sexpr::Tree;
use br_words::Size;
use sqlite_items::Items;
use std::alloc::Global;

/// A command as a tree.
#[cycle(cmd_tree)]
pub fn cmd_tree(alloc: Global, c: &Cmd) -> Result<Tree, NoMemory>
    requires { IsTrue (is_shaped_command c.now) }
    ensures denotes { IfOk result (λ t. command t ≡ Ok (unplaced c.now)) }
    ensures offsets { IfOk result (λ t. IsTrue (is_unplaced t)) }
{
    match c {
        Cmd::Skip => skip_tree(alloc),
        Cmd::Set(variable, value) => set_tree(alloc, variable, value),
        Cmd::Unset(variable) => unset_tree(alloc, variable),
        Cmd::Store(size, address, value) => store_tree(alloc, *size, address, value),
        Cmd::Stackalloc(variable, size, body) => {
            stackalloc_tree(alloc, variable, *size, body.as_slice())
        }
        Cmd::If(test, yes, no) => if_tree(alloc, test, yes.as_slice(), no.as_slice()),
        Cmd::While(test, body) => while_tree(alloc, test, body.as_slice()),
        Cmd::Seq(body) => body_tree(alloc, b"seq", body.as_slice()),
        Cmd::Call {
            results,
            callee,
            args,
            ..
        } => target_tree(alloc, b"call", results.as_slice(), callee, args.as_slice()),
        Cmd::Interact {
            results,
            action,
            args,
            ..
        } => target_tree(
            alloc,
            b"interact",
            results.as_slice(),
            action,
            args.as_slice(),
        ),
    }
}

fn skip_tree(alloc: Global) -> Result<Tree, NoMemory>
    ensures denotes { IfOk result (λ t. command t ≡ Ok Cmd.Skip) }
    ensures offsets { IfOk result (λ t. IsTrue (is_unplaced t)) }
{
    let items = form(alloc, b"skip")?;
    Ok(Tree::List { at: 0, items })
}

fn set_tree(alloc: Global, variable: &Name, value: &Expr) -> Result<Tree, NoMemory>
    ensures denotes { IfOk result (λ t. command t ≡ Ok (Cmd.Set variable.now value.now)) }
    ensures offsets { IfOk result (λ t. IsTrue (is_unplaced t)) }
{
    let mut items = form(alloc, b"set")?;
    items.push(name_tree(variable)?)?;
    items.push(expr_tree(alloc, value)?)?;
    Ok(Tree::List { at: 0, items })
}

fn unset_tree(alloc: Global, variable: &Name) -> Result<Tree, NoMemory>
    ensures denotes { IfOk result (λ t. command t ≡ Ok (Cmd.Unset variable.now)) }
    ensures offsets { IfOk result (λ t. IsTrue (is_unplaced t)) }
{
    let mut items = form(alloc, b"unset")?;
    items.push(name_tree(variable)?)?;
    Ok(Tree::List { at: 0, items })
}

fn store_tree(alloc: Global, size: Size, address: &Expr, value: &Expr) -> Result<Tree, NoMemory>
    ensures denotes { IfOk result (λ t. command t ≡ Ok (Cmd.Store size address.now value.now)) }
    ensures offsets { IfOk result (λ t. IsTrue (is_unplaced t)) }
{
    let mut items = form(alloc, store_word(size))?;
    items.push(expr_tree(alloc, address)?)?;
    items.push(expr_tree(alloc, value)?)?;
    Ok(Tree::List { at: 0, items })
}

#[cycle(cmd_tree)]
fn stackalloc_tree(
    alloc: Global,
    variable: &Name,
    size: u32,
    body: &[Cmd],
) -> Result<Tree, NoMemory>
    requires size { IsTrue (is_buffer_size size) }
    requires body { IsTrue (list_all is_shaped_command body.now) }
    ensures denotes { IfOk result
        (λ t. command t ≡ Ok (Cmd.Stackalloc variable.now size (map unplaced body.now))) }
    ensures offsets { IfOk result (λ t. IsTrue (is_unplaced t)) }
{
    let mut items = form(alloc, b"stackalloc")?;
    items.push(name_tree(variable)?)?;
    items.push(Tree::Number { at: 0, value: size })?;
    items.append(cmd_trees(alloc, body)?)?;
    Ok(Tree::List { at: 0, items })
}

#[cycle(cmd_tree)]
fn if_tree(alloc: Global, test: &Expr, yes: &[Cmd], no: &[Cmd]) -> Result<Tree, NoMemory>
    requires yes { IsTrue (list_all is_shaped_command yes.now) }
    requires no { IsTrue (list_all is_shaped_command no.now) }
    ensures denotes { IfOk result
        (λ t. command t ≡ Ok (Cmd.If test.now (map unplaced yes.now) (map unplaced no.now))) }
    ensures offsets { IfOk result (λ t. IsTrue (is_unplaced t)) }
{
    let mut items = form(alloc, b"if")?;
    items.push(expr_tree(alloc, test)?)?;
    items.push(body_tree(alloc, b"then", yes)?)?;
    items.push(body_tree(alloc, b"else", no)?)?;
    Ok(Tree::List { at: 0, items })
}

#[cycle(cmd_tree)]
fn while_tree(alloc: Global, test: &Expr, body: &[Cmd]) -> Result<Tree, NoMemory>
    requires { IsTrue (list_all is_shaped_command body.now) }
    ensures denotes { IfOk result
        (λ t. command t ≡ Ok (Cmd.While test.now (map unplaced body.now))) }
    ensures offsets { IfOk result (λ t. IsTrue (is_unplaced t)) }
{
    let mut items = form(alloc, b"while")?;
    items.push(expr_tree(alloc, test)?)?;
    items.append(cmd_trees(alloc, body)?)?;
    Ok(Tree::List { at: 0, items })
}

// Commands after a word.
#[cycle(cmd_tree)]
fn body_tree(alloc: Global, word: &[u8], body: &[Cmd]) -> Result<Tree, NoMemory>
    requires name { IsName word.now }
    requires body { IsTrue (list_all is_shaped_command body.now) }
    ensures tree { IfOk result (λ t. IsBodyTree t word.now (map unplaced body.now)) }
    ensures offsets { IfOk result (λ t. IsTrue (is_unplaced t)) }
{
    let mut items = form(alloc, word)?;
    items.append(cmd_trees(alloc, body)?)?;
    Ok(Tree::List { at: 0, items })
}

// A call or an interaction, by its first word.
fn target_tree(
    alloc: Global,
    word: &[u8],
    results: &[Name],
    called: &Name,
    args: &[Expr],
) -> Result<Tree, NoMemory>
    requires name { IsName word.now }
    requires results { IsTrue (are_names results.now) }
    requires args { IsTrue (are_arguments args.now) }
    ensures tree { IfOk result (λ t. IsTargetTree t word.now results.now called.now args.now) }
    ensures offsets { IfOk result (λ t. IsTrue (is_unplaced t)) }
{
    let mut items = form(alloc, word)?;
    items.push(names_tree(alloc, results)?)?;
    items.push(name_tree(called)?)?;
    items.append(expr_trees(alloc, args)?)?;
    Ok(Tree::List { at: 0, items })
}

/// Commands as trees.
#[cycle(cmd_tree)]
pub fn cmd_trees(alloc: Global, body: &[Cmd]) -> Result<Items<Tree>, NoMemory>
    requires { IsTrue (list_all is_shaped_command body.now) }
    ensures denotes { IfOk result (λ ts. commands ts ≡ Ok (map unplaced body.now)) }
    ensures offsets { IfOk result AreUnplaced }
{
    let mut items = Items::new(alloc);
    for c in body {
        items.push(cmd_tree(alloc, c)?)?;
    }
    Ok(items)
}
