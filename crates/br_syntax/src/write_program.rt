// Programs as trees.

ghost use Rattle.std.specs.Prelude.{◌≡◌, IfOk, IsTrue};
ghost use Rattle.std.specs.List.{list_all};
ghost use Rattle.br_syntax.specs.Shape.{is_shaped_function};
ghost use Rattle.br_syntax.specs.Denotes.{function, Denotes};
ghost use Rattle.br_syntax.specs.Offsets.{is_unplaced, AreUnplaced};
ghost use Rattle.br_syntax.specs.Offsets.{unplaced_function, without_offsets};

use crate::program::{Func, Program};
use crate::write_cmd::cmd_trees;
use crate::write_expr::{form, name_tree, names_tree};
use br_base::NoMemory;
use br_sexpr::Tree;
use sqlite_items::Items;
use std::alloc::Global;

/// The trees of a program, one a function, each offset 0. They stand for the program up to
/// offsets.
pub fn to_tree(alloc: Global, program: &Program) -> Result<Items<Tree>, NoMemory>
    ensures denotes { IfOk result (λ trees. Denotes trees (without_offsets program.now.funcs)) }
    ensures offsets { IfOk result AreUnplaced }
{
    func_trees(alloc, program.funcs.as_slice())
}

fn func_trees(alloc: Global, funcs: &[Func]) -> Result<Items<Tree>, NoMemory>
    requires { IsTrue (list_all is_shaped_function funcs.now) }
    ensures denotes { IfOk result (λ trees. Denotes trees (without_offsets funcs.now)) }
    ensures offsets { IfOk result AreUnplaced }
{
    let mut trees = Items::new(alloc);
    for func in funcs {
        trees.push(func_tree(alloc, func)?)?;
    }
    Ok(trees)
}

fn func_tree(alloc: Global, func: &Func) -> Result<Tree, NoMemory>
    requires { IsTrue (is_shaped_function func.now) }
    ensures denotes { IfOk result (λ t. function t ≡ Ok (unplaced_function func.now)) }
    ensures offsets { IfOk result (λ t. IsTrue (is_unplaced t)) }
{
    let mut items = form(alloc, b"fn")?;
    items.push(name_tree(&func.name)?)?;
    items.push(names_tree(alloc, func.args.as_slice())?)?;
    items.push(names_tree(alloc, func.results.as_slice())?)?;
    items.append(cmd_trees(alloc, func.body.as_slice())?)?;
    Ok(Tree::List { at: 0, items })
}
