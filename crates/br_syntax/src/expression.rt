// Trees as expressions.

ghost use Rattle.std.specs.Prelude.{◌≡◌, IfOk, map};
ghost use Rattle.br_syntax.specs.Denotes.{expression, expression_of, of_two, of_three, of_four};
ghost use Rattle.br_syntax.specs.Denotes.{with_expression, argument_at, arguments_from};
ghost use Rattle.br_syntax.specs.Denotes.{load_of, table_of, operation_of, ite_of};

use crate::faults::ShapeFault;
use crate::part::{MOST_NAMES, bytes};
use crate::program::Expr;
use crate::shaped::{Shaped, both, lowest, push};
use crate::word::{ExprWord, expr_word, offset, word};
use br_base::NoMemory;
use br_sexpr::Tree;
use br_words::{BinOp, Size};
use sqlite_items::{Boxed, Items};
use std::alloc::Global;

/// A place that asks for an expression.
#[cycle(expression)]
#[tactic(auto, using(crate::proofs::Equations::expressions))]
pub fn expression(alloc: Global, tree: &Tree) -> Result<Shaped<Expr>, NoMemory>
    ensures { IfOk result (λ r. r ≡ expression tree.now) }
{
    match tree {
        Tree::Number { value, .. } => Ok(Ok(Expr::Literal(*value))),
        Tree::Name { text, .. } => Ok(Ok(Expr::Var(text.copy()?))),
        Tree::List { at, items } => expression_of(alloc, *at, items.as_slice()),
    }
}

// The expression in a list of these items.
#[cycle(expression)]
#[tactic(auto, using(crate::proofs::Lists::lists))]
fn expression_of(alloc: Global, at: u32, items: &[Tree]) -> Result<Shaped<Expr>, NoMemory>
    ensures { IfOk result (λ r. r ≡ expression_of at (map with_expression items.now)) }
{
    match items {
        [head, x] => of_two(alloc, at, expr_word(word(head)), x),
        [head, x, y] => of_three(alloc, at, expr_word(word(head)), x, y),
        [head, x, y, z] => of_four(alloc, at, expr_word(word(head)), x, y, z),
        _ => Ok(Err(ShapeFault::BadForm(at))),
    }
}

#[cycle(expression)]
fn of_two(
    alloc: Global,
    at: u32,
    first: Option<ExprWord>,
    x: &Tree,
) -> Result<Shaped<Expr>, NoMemory>
    ensures { IfOk result (λ r. r ≡ of_two at first (with_expression x.now)) }
{
    match first {
        Some(ExprWord::Load(size)) => load(alloc, size, expression(alloc, x)?),
        Some(ExprWord::Table(_)) | Some(ExprWord::Op(_)) | Some(ExprWord::Ite) | None => {
            Ok(Err(ShapeFault::BadForm(at)))
        }
    }
}

#[cycle(expression)]
fn of_three(
    alloc: Global,
    at: u32,
    first: Option<ExprWord>,
    x: &Tree,
    y: &Tree,
) -> Result<Shaped<Expr>, NoMemory>
    ensures { IfOk result
        (λ r. r ≡ of_three at first (with_expression x.now) (with_expression y.now)) }
{
    match first {
        Some(ExprWord::Table(size)) => table(alloc, size, bytes(alloc, x)?, expression(alloc, y)?),
        Some(ExprWord::Op(operation)) => {
            operate(
                alloc,
                operation,
                expression(alloc, x)?,
                expression(alloc, y)?,
            )
        }
        Some(ExprWord::Load(_)) | Some(ExprWord::Ite) | None => Ok(Err(ShapeFault::BadForm(at))),
    }
}

#[cycle(expression)]
fn of_four(
    alloc: Global,
    at: u32,
    first: Option<ExprWord>,
    x: &Tree,
    y: &Tree,
    z: &Tree,
) -> Result<Shaped<Expr>, NoMemory>
    ensures { IfOk result (λ r. r ≡ of_four at first (with_expression x.now) (with_expression y.now)
        (with_expression z.now)) }
{
    match first {
        Some(ExprWord::Ite) => {
            let test = expression(alloc, x)?;
            let first = expression(alloc, y)?;
            let second = expression(alloc, z)?;
            choose(alloc, test, first, second)
        }
        Some(ExprWord::Load(_)) | Some(ExprWord::Table(_)) | Some(ExprWord::Op(_)) | None => {
            Ok(Err(ShapeFault::BadForm(at)))
        }
    }
}

fn load(alloc: Global, size: Size, address: Shaped<Expr>) -> Result<Shaped<Expr>, NoMemory>
    ensures { IfOk result (λ r. r ≡ load_of size address) }
{
    match address {
        Ok(address) => Ok(Ok(Expr::Load(size, Boxed::new(alloc, address)?))),
        Err(fault) => Ok(Err(fault)),
    }
}

fn table(
    alloc: Global,
    size: Size,
    bytes: Shaped<Items<u8>>,
    index: Shaped<Expr>,
) -> Result<Shaped<Expr>, NoMemory>
    ensures { IfOk result (λ r. r ≡ table_of size bytes index) }
{
    match both(bytes, index) {
        Ok((bytes, index)) => Ok(Ok(Expr::Table(size, bytes, Boxed::new(alloc, index)?))),
        Err(fault) => Ok(Err(fault)),
    }
}

fn operate(
    alloc: Global,
    operation: BinOp,
    first: Shaped<Expr>,
    second: Shaped<Expr>,
) -> Result<Shaped<Expr>, NoMemory>
    ensures { IfOk result (λ r. r ≡ operation_of operation first second) }
{
    match both(first, second) {
        Ok((first, second)) => {
            let first = Boxed::new(alloc, first)?;
            let second = Boxed::new(alloc, second)?;
            Ok(Ok(Expr::Op(operation, first, second)))
        }
        Err(fault) => Ok(Err(fault)),
    }
}

fn choose(
    alloc: Global,
    test: Shaped<Expr>,
    first: Shaped<Expr>,
    second: Shaped<Expr>,
) -> Result<Shaped<Expr>, NoMemory>
    ensures { IfOk result (λ r. r ≡ ite_of test first second) }
{
    match both(both(test, first), second) {
        Ok(((test, first), second)) => {
            let test = Boxed::new(alloc, test)?;
            let first = Boxed::new(alloc, first)?;
            let second = Boxed::new(alloc, second)?;
            Ok(Ok(Expr::Ite(test, first, second)))
        }
        Err(fault) => Ok(Err(fault)),
    }
}

/// The arguments of a call or an interaction.
#[tactic(auto, using(crate::proofs::Joined::joins))]
pub fn arguments(alloc: Global, items: &[Tree]) -> Result<Shaped<Items<Expr>>, NoMemory>
    ensures { IfOk result (λ r. r ≡ arguments_from 0 items.now) }
{
    let mut found = Ok(Items::new(alloc));
    for (i, item) in items.iter().enumerate() {
        found = push(found, argument_at(alloc, i, item)?)?;
    }
    Ok(found)
}

// An argument after so many others.
fn argument_at(alloc: Global, i: usize, item: &Tree) -> Result<Shaped<Expr>, NoMemory>
    ensures { IfOk result (λ r. r ≡ argument_at i item.now) }
{
    let found = expression(alloc, item)?;
    if i == MOST_NAMES {
        Ok(Err(lowest(ShapeFault::TooMany(offset(item)), found)))
    } else {
        Ok(found)
    }
}
