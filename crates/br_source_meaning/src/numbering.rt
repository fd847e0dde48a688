// Functions of the source with numbers in place of names.

ghost use Rattle.std.specs.Prelude.{◌≡◌, ℕ, List, map, IfOk};
ghost use Rattle.br_syntax.specs.declared.program.Cmd.TheVariants.{Set, Unset, Store, Stackalloc};
ghost use Rattle.br_syntax.specs.declared.program.Cmd.TheVariants.{If, While, Seq, Call, Interact};
ghost use Rattle.br_source_meaning.specs.Names.{function_names};
ghost use Rattle.br_source_meaning.specs.Numbered.{target_name, named_function, HasSourceResults};
ghost use Rattle.br_source_meaning.specs.Numbered.{NumbersVariables, NumbersExpr, NumbersExprs};
ghost use Rattle.br_source_meaning.specs.Numbered.{NumbersCommand, NumbersCommands};

use crate::numbered::{NumberedCmd, NumberedExpr, NumberedFunc, Target};
use crate::variable_names::VariableNames;
use br_base::{Name, NoMemory};
use br_numbering::Index;
use br_syntax::{Cmd, Expr, Func};
use br_words::Size;
use sqlite_items::{Boxed, Items};
use std::alloc::Global;

// The function that has a name, by number.
fn target<'b>(index: &Index, x: &'b Name) -> Target<'b>
    ensures { target_name (function_names index.now.funcs.now) result ≡ x.now }
{
    match index.number(x.bytes()) {
        Some(k) => Target::Number(k),
        None => Target::Missing(x),
    }
}

/// The functions of a program.
pub(crate) fn functions<'a>(
    alloc: Global,
    index: &Index,
    funcs: &'a [Func],
) -> Result<Items<NumberedFunc<'a>>, NoMemory>
    ensures { IfOk result (λ fs. map (named_function (function_names index.now.funcs.now)) fs
        ≡ funcs.now) }
{
    let mut numbered = Items::new(alloc);
    for f in funcs {
        numbered.push(function(alloc, index, f)?)?;
    }
    Ok(numbered)
}

/// A function, with the names of its variables.
pub(crate) fn function<'a>(
    alloc: Global,
    index: &Index,
    func: &'a Func,
) -> Result<NumberedFunc<'a>, NoMemory>
    ensures named { IfOk result
        (λ f. named_function (function_names index.now.funcs.now) f ≡ func.now) }
    ensures results { IfOk result (λ f. HasSourceResults f) }
{
    let mut own = VariableNames::new(alloc)?;
    let args = variables(alloc, &mut own, func.args.as_slice())?;
    let results = variables(alloc, &mut own, func.results.as_slice())?;
    let body = commands(alloc, index, &mut own, func.body.as_slice())?;
    Ok(NumberedFunc {
        func,
        names: own,
        args,
        results,
        body,
    })
}

fn variables<'a>(
    alloc: Global,
    own: &mut VariableNames<'a>,
    xs: &'a [Name],
) -> Result<Items<usize>, NoMemory>
    ensures { IfOk result (λ ks. NumbersVariables own.old own.new ks xs.now) }
{
    let mut numbered = Items::new(alloc);
    for x in xs {
        numbered.push(own.number(x)?)?;
    }
    Ok(numbered)
}

#[cycle(numbered_expression)]
fn expression<'a>(
    alloc: Global,
    own: &mut VariableNames<'a>,
    e: &'a Expr,
) -> Result<NumberedExpr<'a>, NoMemory>
    ensures { IfOk result (λ n. NumbersExpr own.old own.new n e.now) }
{
    match e {
        Expr::Literal(n) => Ok(NumberedExpr::Literal(*n)),
        Expr::Var(x) => Ok(NumberedExpr::Var(own.number(x)?)),
        Expr::Load(size, a) => {
            let a = boxed(alloc, own, a)?;
            Ok(NumberedExpr::Load(*size, a))
        }
        Expr::Table(size, bytes, i) => {
            let i = boxed(alloc, own, i)?;
            Ok(NumberedExpr::Table(*size, bytes.as_slice(), i))
        }
        Expr::Op(o, a, b) => {
            let a = boxed(alloc, own, a)?;
            let b = boxed(alloc, own, b)?;
            Ok(NumberedExpr::Op(*o, a, b))
        }
        Expr::Ite(test, a, b) => {
            let test = boxed(alloc, own, test)?;
            let a = boxed(alloc, own, a)?;
            let b = boxed(alloc, own, b)?;
            Ok(NumberedExpr::Ite(test, a, b))
        }
    }
}

#[cycle(numbered_expression)]
fn boxed<'a>(
    alloc: Global,
    own: &mut VariableNames<'a>,
    e: &'a Boxed<Expr>,
) -> Result<Boxed<NumberedExpr<'a>>, NoMemory>
    ensures { IfOk result (λ n. NumbersExpr own.old own.new n e.now) }
{
    Ok(Boxed::new(alloc, expression(alloc, own, e.get())?)?)
}

fn expressions<'a>(
    alloc: Global,
    own: &mut VariableNames<'a>,
    es: &'a [Expr],
) -> Result<Items<NumberedExpr<'a>>, NoMemory>
    ensures { IfOk result (λ ns. NumbersExprs own.old own.new ns es.now) }
{
    let mut numbered = Items::new(alloc);
    for e in es {
        numbered.push(expression(alloc, own, e)?)?;
    }
    Ok(numbered)
}

#[cycle(numbering)]
fn commands<'a>(
    alloc: Global,
    index: &Index,
    own: &mut VariableNames<'a>,
    cs: &'a [Cmd],
) -> Result<Items<NumberedCmd<'a>>, NoMemory>
    ensures { IfOk result (λ ns. NumbersCommands (function_names index.now.funcs.now) own.old
        own.new ns cs.now) }
{
    let mut numbered = Items::new(alloc);
    for c in cs {
        numbered.push(command(alloc, index, own, c)?)?;
    }
    Ok(numbered)
}

// A command. Each form that has parts is a function of its own.
#[cycle(numbering)]
fn command<'a>(
    alloc: Global,
    index: &Index,
    own: &mut VariableNames<'a>,
    c: &'a Cmd,
) -> Result<NumberedCmd<'a>, NoMemory>
    ensures { IfOk result (λ n. NumbersCommand (function_names index.now.funcs.now) own.old own.new
        n c.now) }
{
    match c {
        Cmd::Skip => Ok(NumberedCmd::Skip),
        Cmd::Set(x, e) => set(alloc, own, x, e),
        Cmd::Unset(x) => unset(own, x),
        Cmd::Store(size, a, e) => store(alloc, own, *size, a, e),
        Cmd::Stackalloc(x, n, body) => buffer(alloc, index, own, x, *n, body.as_slice()),
        Cmd::If(e, first, second) => choice(
            alloc,
            index,
            own,
            e,
            first.as_slice(),
            second.as_slice(),
        ),
        Cmd::While(e, body) => repetition(alloc, index, own, e, body.as_slice()),
        Cmd::Seq(body) => sequence(alloc, index, own, body.as_slice()),
        Cmd::Call {
            at,
            results,
            callee,
            args,
        } => {
            let callee = target(index, callee);
            call(alloc, own, *at, results.as_slice(), callee, args.as_slice())
        }
        Cmd::Interact {
            at,
            results,
            action,
            args,
        } => interact(alloc, own, *at, results.as_slice(), action, args.as_slice()),
    }
}

#[cycle(numbering)]
fn buffer<'a>(
    alloc: Global,
    index: &Index,
    own: &mut VariableNames<'a>,
    x: &'a Name,
    n: u32,
    body: &'a [Cmd],
) -> Result<NumberedCmd<'a>, NoMemory>
    ensures { IfOk result (λ c. NumbersCommand (function_names index.now.funcs.now) own.old own.new
        c (Stackalloc x.now n body.now)) }
{
    let k = own.number(x)?;
    let body = commands(alloc, index, own, body)?;
    Ok(NumberedCmd::Stackalloc(k, n, body))
}

#[cycle(numbering)]
fn choice<'a>(
    alloc: Global,
    index: &Index,
    own: &mut VariableNames<'a>,
    e: &'a Expr,
    first: &'a [Cmd],
    second: &'a [Cmd],
) -> Result<NumberedCmd<'a>, NoMemory>
    ensures { IfOk result (λ c. NumbersCommand (function_names index.now.funcs.now) own.old own.new
        c (If e.now first.now second.now)) }
{
    let e = expression(alloc, own, e)?;
    let first = commands(alloc, index, own, first)?;
    let second = commands(alloc, index, own, second)?;
    Ok(NumberedCmd::If(e, first, second))
}

#[cycle(numbering)]
fn repetition<'a>(
    alloc: Global,
    index: &Index,
    own: &mut VariableNames<'a>,
    e: &'a Expr,
    body: &'a [Cmd],
) -> Result<NumberedCmd<'a>, NoMemory>
    ensures { IfOk result (λ c. NumbersCommand (function_names index.now.funcs.now) own.old own.new
        c (While e.now body.now)) }
{
    let e = expression(alloc, own, e)?;
    let body = commands(alloc, index, own, body)?;
    Ok(NumberedCmd::While(e, body))
}

#[cycle(numbering)]
fn sequence<'a>(
    alloc: Global,
    index: &Index,
    own: &mut VariableNames<'a>,
    body: &'a [Cmd],
) -> Result<NumberedCmd<'a>, NoMemory>
    ensures { IfOk result (λ c. NumbersCommand (function_names index.now.funcs.now) own.old own.new
        c (Seq body.now)) }
{
    Ok(NumberedCmd::Seq(commands(alloc, index, own, body)?))
}

fn set<'a>(
    alloc: Global,
    own: &mut VariableNames<'a>,
    x: &'a Name,
    e: &'a Expr,
) -> Result<NumberedCmd<'a>, NoMemory>
    ensures { IfOk result (λ c. (names : List (List ℕ))
        → NumbersCommand names own.old own.new c (Set x.now e.now)) }
{
    let k = own.number(x)?;
    let e = expression(alloc, own, e)?;
    Ok(NumberedCmd::Set(k, e))
}

fn unset<'a>(own: &mut VariableNames<'a>, x: &'a Name) -> Result<NumberedCmd<'a>, NoMemory>
    ensures { IfOk result (λ c. (names : List (List ℕ))
        → NumbersCommand names own.old own.new c (Unset x.now)) }
{
    Ok(NumberedCmd::Unset(own.number(x)?))
}

fn store<'a>(
    alloc: Global,
    own: &mut VariableNames<'a>,
    size: Size,
    a: &'a Expr,
    e: &'a Expr,
) -> Result<NumberedCmd<'a>, NoMemory>
    ensures { IfOk result (λ c. (names : List (List ℕ))
        → NumbersCommand names own.old own.new c (Store size a.now e.now)) }
{
    let a = expression(alloc, own, a)?;
    let e = expression(alloc, own, e)?;
    Ok(NumberedCmd::Store(size, a, e))
}

fn call<'a>(
    alloc: Global,
    own: &mut VariableNames<'a>,
    at: u32,
    results: &'a [Name],
    callee: Target<'a>,
    args: &'a [Expr],
) -> Result<NumberedCmd<'a>, NoMemory>
    ensures { IfOk result (λ c. (names : List (List ℕ))
        → NumbersCommand names own.old own.new c
        (Call at results.now (target_name names callee.entry) args.now)) }
{
    let results = variables(alloc, own, results)?;
    let args = expressions(alloc, own, args)?;
    Ok(NumberedCmd::Call {
        at,
        results,
        callee,
        args,
    })
}

fn interact<'a>(
    alloc: Global,
    own: &mut VariableNames<'a>,
    at: u32,
    results: &'a [Name],
    action: &'a Name,
    args: &'a [Expr],
) -> Result<NumberedCmd<'a>, NoMemory>
    ensures { IfOk result (λ c. (names : List (List ℕ))
        → NumbersCommand names own.old own.new c (Interact at results.now action.now args.now)) }
{
    let results = variables(alloc, own, results)?;
    let args = expressions(alloc, own, args)?;
    Ok(NumberedCmd::Interact {
        at,
        results,
        action,
        args,
    })
}
