// The variables of a function, numbered in the order of their first place.

ghost use Rattle.std.specs.Prelude.{◌≡◌, OnOk, IfOk};
ghost use Rattle.br_flatten.specs.Places.{command_variables, commands_variables};
ghost use Rattle.br_flatten.specs.Places.{expression_variables, expressions_variables};
ghost use Rattle.br_flatten.specs.Places.{first_places, with_names};

use br_base::NoMemory;
use br_numbering::Numbering;
use br_syntax::{Cmd, Expr, Func};
use std::alloc::Global;

/// The variables of a function.
#[tactic(auto, using(crate::proofs::VariableParts::variables))]
pub(crate) fn first_places(alloc: Global, f: &Func) -> Result<Numbering, NoMemory>
    ensures { IfOk result (λ n. n ≡ first_places f.now) }
{
    let mut names = Numbering::new(alloc);
    names.add_all(f.args.as_slice())?;
    names.add_all(f.results.as_slice())?;
    commands(f.body.as_slice(), &mut names)?;
    Ok(names)
}

#[cycle(places)]
#[tactic(auto, using(crate::proofs::VariableParts::variables))]
fn commands<'a>(cs: &'a [Cmd], names: &mut Numbering<'a>) -> Result<(), NoMemory>
    ensures { OnOk result
        (names.new ≡ with_names names.old (commands_variables cs.now)) }
{
    for c in cs {
        command(c, names)?;
    }
    Ok(())
}

#[cycle(places)]
#[tactic(auto, using(crate::proofs::VariableParts::variables))]
fn command<'a>(c: &'a Cmd, names: &mut Numbering<'a>) -> Result<(), NoMemory>
    ensures { OnOk result
        (names.new ≡ with_names names.old (command_variables c.now)) }
{
    match c {
        Cmd::Skip | Cmd::Unset(_) => Ok(()),
        Cmd::Set(x, e) => {
            names.add(x.bytes())?;
            expression(e, names)
        }
        Cmd::Store(_, a, e) => {
            expression(a, names)?;
            expression(e, names)
        }
        Cmd::Stackalloc(x, _, body) => {
            names.add(x.bytes())?;
            commands(body.as_slice(), names)
        }
        Cmd::If(e, first, second) => {
            expression(e, names)?;
            commands(first.as_slice(), names)?;
            commands(second.as_slice(), names)
        }
        Cmd::While(e, body) => {
            expression(e, names)?;
            commands(body.as_slice(), names)
        }
        Cmd::Seq(body) => commands(body.as_slice(), names),
        Cmd::Call { results, args, .. } | Cmd::Interact { results, args, .. } => {
            names.add_all(results.as_slice())?;
            expressions(args.as_slice(), names)
        }
    }
}

#[tactic(auto, using(crate::proofs::VariableParts::variables))]
fn expressions<'a>(es: &'a [Expr], names: &mut Numbering<'a>) -> Result<(), NoMemory>
    ensures { OnOk result (names.new
        ≡ with_names names.old (expressions_variables es.now)) }
{
    for e in es {
        expression(e, names)?;
    }
    Ok(())
}

#[tactic(auto, using(crate::proofs::VariableParts::variables))]
fn expression<'a>(e: &'a Expr, names: &mut Numbering<'a>) -> Result<(), NoMemory>
    ensures { OnOk result (names.new
        ≡ with_names names.old (expression_variables e.now)) }
{
    match e {
        Expr::Literal(_) => Ok(()),
        Expr::Var(x) => {
            names.add(x.bytes())?;
            Ok(())
        }
        Expr::Load(_, a) | Expr::Table(_, _, a) => expression(a.get(), names),
        Expr::Op(_, a, b) => {
            expression(a.get(), names)?;
            expression(b.get(), names)
        }
        Expr::Ite(test, a, b) => {
            expression(test.get(), names)?;
            expression(a.get(), names)?;
            expression(b.get(), names)
        }
    }
}
