// Names, tables and expressions as trees.

ghost use Rattle.std.specs.Prelude.{◌≡◌, IfOk, IsTrue, [], ◌∷◌, map};
ghost use Rattle.br_base.specs.Name.{IsName};
ghost use Rattle.br_syntax.specs.Denotes.{bytes, expression};
ghost use Rattle.br_syntax.specs.Shaped.{all};
ghost use Rattle.br_syntax.specs.Offsets.{is_unplaced, AreUnplaced};

use crate::program::Expr;
use crate::word::{ite_word, load_word, operation_word, table_word};
use br_base::{Name, NoMemory};
use br_sexpr::Tree;
use sqlite_items::Items;
use std::alloc::Global;

/// A name as a tree.
pub fn name_tree(name: &Name) -> Result<Tree, NoMemory>
    ensures { IfOk result (λ t. t ≡ Tree.Name 0 name.now) }
{
    Ok(Tree::Name {
        at: 0,
        text: name.copy()?,
    })
}

/// The items of a list that begins with this word, so far the word alone.
pub fn form(alloc: Global, word: &[u8]) -> Result<Items<Tree>, NoMemory>
    requires { IsName word.now }
    ensures { IfOk result (λ items. items ≡ Tree.Name 0 word.now ∷ []) }
{
    let mut items = Items::new(alloc);
    match Name::from_bytes(Vec::from_slice(alloc, word)?) {
        Some(text) => items.push(Tree::Name { at: 0, text })?,
        None => unreachable!(),
    }
    Ok(items)
}

/// A list of names as a tree.
pub fn names_tree(alloc: Global, names: &[Name]) -> Result<Tree, NoMemory>
    ensures { IfOk result (λ t. t ≡ Tree.List 0 (map (λ n. Tree.Name 0 n) names.now)) }
{
    let mut items = Items::new(alloc);
    for name in names {
        items.push(name_tree(name)?)?;
    }
    Ok(Tree::List { at: 0, items })
}

/// The bytes of a table as a tree.
#[tactic(auto, using(crate::proofs::Written::written))]
pub fn bytes_tree(alloc: Global, table: &[u8]) -> Result<Tree, NoMemory>
    ensures denotes { IfOk result (λ t. bytes t ≡ Ok table.now) }
    ensures offsets { IfOk result (λ t. IsTrue (is_unplaced t)) }
{
    let mut items = Items::new(alloc);
    for byte in table {
        items.push(Tree::Number {
            at: 0,
            value: u32::from(*byte),
        })?;
    }
    Ok(Tree::List { at: 0, items })
}

// A list that begins with this word and has one more item.
fn list_of_two(alloc: Global, word: &[u8], x: Tree) -> Result<Tree, NoMemory>
    requires { IsName word.now }
    ensures { IfOk result (λ t. t ≡ Tree.List 0 (Tree.Name 0 word.now ∷ x ∷ [])) }
{
    let mut items = form(alloc, word)?;
    items.push(x)?;
    Ok(Tree::List { at: 0, items })
}

// A list that begins with this word and has two more items.
fn list_of_three(alloc: Global, word: &[u8], x: Tree, y: Tree) -> Result<Tree, NoMemory>
    requires { IsName word.now }
    ensures { IfOk result (λ t. t ≡ Tree.List 0 (Tree.Name 0 word.now ∷ x ∷ y ∷ [])) }
{
    let mut items = form(alloc, word)?;
    items.push(x)?;
    items.push(y)?;
    Ok(Tree::List { at: 0, items })
}

// A list that begins with this word and has three more items.
fn list_of_four(alloc: Global, word: &[u8], x: Tree, y: Tree, z: Tree) -> Result<Tree, NoMemory>
    requires { IsName word.now }
    ensures { IfOk result (λ t. t ≡ Tree.List 0 (Tree.Name 0 word.now ∷ x ∷ y ∷ z ∷ [])) }
{
    let mut items = form(alloc, word)?;
    items.push(x)?;
    items.push(y)?;
    items.push(z)?;
    Ok(Tree::List { at: 0, items })
}

/// An expression as a tree.
#[tactic(auto, using(crate::proofs::WrittenExpr::expressions))]
pub fn expr_tree(alloc: Global, e: &Expr) -> Result<Tree, NoMemory>
    ensures denotes { IfOk result (λ t. expression t ≡ Ok e.now) }
    ensures offsets { IfOk result (λ t. IsTrue (is_unplaced t)) }
{
    match e {
        Expr::Literal(value) => Ok(Tree::Number {
            at: 0,
            value: *value,
        }),
        Expr::Var(name) => name_tree(name),
        Expr::Load(size, address) => {
            list_of_two(alloc, load_word(*size), expr_tree(alloc, address.get())?)
        }
        Expr::Table(size, table, index) => {
            let table = bytes_tree(alloc, table.as_slice())?;
            list_of_three(
                alloc,
                table_word(*size),
                table,
                expr_tree(alloc, index.get())?,
            )
        }
        Expr::Op(operation, first, second) => {
            let first = expr_tree(alloc, first.get())?;
            let second = expr_tree(alloc, second.get())?;
            list_of_three(alloc, operation_word(*operation), first, second)
        }
        Expr::Ite(test, first, second) => {
            let test = expr_tree(alloc, test.get())?;
            let first = expr_tree(alloc, first.get())?;
            let second = expr_tree(alloc, second.get())?;
            list_of_four(alloc, ite_word(), test, first, second)
        }
    }
}

/// Expressions as trees.
#[tactic(auto, using(crate::proofs::Written::written))]
pub fn expr_trees(alloc: Global, expressions: &[Expr]) -> Result<Items<Tree>, NoMemory>
    ensures denotes { IfOk result (λ ts. all (map expression ts) ≡ Ok expressions.now) }
    ensures offsets { IfOk result AreUnplaced }
{
    let mut items = Items::new(alloc);
    for e in expressions {
        items.push(expr_tree(alloc, e)?)?;
    }
    Ok(items)
}
