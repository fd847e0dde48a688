// The statements of expressions: of their words, as tests, and as addresses.

ghost use Rattle.std.specs.Prelude.{◌≡◌, ◌≤◌, ◌+◌, ◌++◌, map, IfOk, OnOk};
ghost use Rattle.br_flatten.specs.Flatten.{code, codes_of, expression, next, place, places_of};
ghost use Rattle.br_flatten.specs.Scope.{scoped};
ghost use Rattle.br_measure.specs.Bulk.{expression_bulk, expressions_bulk};

use crate::compare::{Tested, negation, relation};
use crate::constants::{byte_offset, constant, left_constant};
use crate::scope::Scope;
use br_base::NoMemory;
use br_flatimp::{Cond, Operand, Stmt};
use br_simplify::asks_zero;
use br_syntax::Expr;
use sqlite_items::Items;

/// Where the word of an operand stands, and the first temporary that is free after it.
#[derive(Clone, Copy)]
pub(crate) struct Placed {
    pub(crate) at: u32,
    pub(crate) next: u32,
}

/// Adds the statements that set a name to the word of an expression, where the temporaries from a
/// number on are free.
#[cycle(expression)]
pub(crate) fn into(
    scope: &Scope,
    e: &Expr,
    x: u32,
    free: u32,
    out: &mut Items<Stmt>,
) -> Result<(), NoMemory>
    requires { free + expression_bulk e.now ≤ 4294967296 }
    ensures { OnOk result (out.new ≡ out.old ++
        (expression (scoped scope.now.variables.now scope.now.held.now) e.now).into x free) }
{
    match e {
        Expr::Literal(n) => {
            out.push(Stmt::Lit(x, *n))?;
        }
        Expr::Var(y) => {
            out.push(Stmt::Copy(x, scope.variable(y)))?;
        }
        Expr::Load(size, a) => {
            let from = address(scope, a.get(), free, out)?;
            out.push(Stmt::Load(x, *size, from.at, from.offset))?;
        }
        Expr::Table(size, bytes, i) => {
            let offset = operand(scope, i.get(), free, out)?;
            let bytes = Items::from_slice(scope.alloc, bytes.as_slice())?;
            out.push(Stmt::Table(x, *size, bytes, offset.at))?;
        }
        Expr::Op(op, a, b) => {
            if let Some(c) = constant(*op, scope.literal(b.get())) {
                let first = operand(scope, a.get(), free, out)?;
                out.push(Stmt::Op(x, *op, first.at, Operand::Const(c)))?;
            } else if let Some(c) = left_constant(*op, scope.literal(a.get())) {
                let second = operand(scope, b.get(), free, out)?;
                out.push(Stmt::Op(x, *op, second.at, Operand::Const(c)))?;
            } else {
                let first = operand(scope, a.get(), free, out)?;
                let second = operand(scope, b.get(), first.next, out)?;
                out.push(Stmt::Op(x, *op, first.at, Operand::Name(second.at)))?;
            }
        }
        Expr::Ite(test, a, b) => {
            let test = tested(scope, test.get(), free, out)?;
            let mut first = Items::new(scope.alloc);
            into(scope, a.get(), x, free, &mut first)?;
            let mut second = Items::new(scope.alloc);
            into(scope, b.get(), x, free, &mut second)?;
            out.push(Stmt::If(test.cond, first, second))?;
        }
    }
    Ok(())
}

/// Where the bytes at an address stand, and the first temporary that is free after it.
#[derive(Clone, Copy)]
pub(crate) struct Addressed {
    pub(crate) at: u32,
    pub(crate) next: u32,
    pub(crate) offset: i32,
}

/// Adds the statements before bytes are found at the word of an expression.
#[cycle(expression)]
pub(crate) fn address(
    scope: &Scope,
    e: &Expr,
    free: u32,
    out: &mut Items<Stmt>,
) -> Result<Addressed, NoMemory>
    requires { free + expression_bulk e.now ≤ 4294967295 }
    ensures before { OnOk result (out.new ≡ out.old ++ ((expression
        (scoped scope.now.variables.now scope.now.held.now) e.now).address free).before) }
    ensures at { IfOk result (λ a. a.at ≡ ((expression
        (scoped scope.now.variables.now scope.now.held.now) e.now).address free).at) }
    ensures next { IfOk result (λ a. a.next ≡ ((expression
        (scoped scope.now.variables.now scope.now.held.now) e.now).address free).next) }
    ensures offset { IfOk result (λ a. a.offset ≡ ((expression
        (scoped scope.now.variables.now scope.now.held.now) e.now).address free).offset) }
    ensures room { IfOk result (λ a. a.next ≤ free + expression_bulk e.now) }
{
    if let Expr::Op(op, a, b) = e {
        if let Some(offset) = byte_offset(*op, scope.literal(b.get())) {
            let base = operand(scope, a.get(), free, out)?;
            return Ok(Addressed {
                at: base.at,
                next: base.next,
                offset,
            });
        }
        if let Some(offset) = byte_offset(*op, scope.literal(a.get())) {
            let base = operand(scope, b.get(), free, out)?;
            return Ok(Addressed {
                at: base.at,
                next: base.next,
                offset,
            });
        }
    }
    let word = operand(scope, e, free, out)?;
    Ok(Addressed {
        at: word.at,
        next: word.next,
        offset: 0,
    })
}

/// Adds the statements of an operand: none where it is a variable or a held literal, and else
/// those that set the first free temporary to its word.
#[cycle(expression)]
#[tactic(auto, using(crate::proofs::Weights::weights))]
pub(crate) fn operand(
    scope: &Scope,
    e: &Expr,
    free: u32,
    out: &mut Items<Stmt>,
) -> Result<Placed, NoMemory>
    requires { free + expression_bulk e.now ≤ 4294967295 }
    ensures code { OnOk result (out.new ≡ out.old
        ++ code (expression (scoped scope.now.variables.now scope.now.held.now) e.now) free) }
    ensures at { IfOk result (λ p. p.at ≡ place (expression
        (scoped scope.now.variables.now scope.now.held.now) e.now).variable free) }
    ensures next { IfOk result (λ p. p.next ≡ next (expression
        (scoped scope.now.variables.now scope.now.held.now) e.now).variable free) }
    ensures room { IfOk result (λ p. p.next ≤ free + expression_bulk e.now) }
{
    if let Some(at) = scope.named(e) {
        return Ok(Placed { at, next: free });
    }
    into(scope, e, free, free + 1, out)?;
    Ok(Placed {
        at: free,
        next: free + 1,
    })
}

/// Adds the statements before the test that holds where the word of an expression is not 0.
#[cycle(expression)]
pub(crate) fn tested(
    scope: &Scope,
    e: &Expr,
    free: u32,
    out: &mut Items<Stmt>,
) -> Result<Tested, NoMemory>
    requires { free + expression_bulk e.now ≤ 4294967295 }
    ensures before { OnOk result (out.new ≡ out.old ++ ((expression
        (scoped scope.now.variables.now scope.now.held.now) e.now).test free).before) }
    ensures cond { IfOk result (λ t. t.cond ≡ ((expression
        (scoped scope.now.variables.now scope.now.held.now) e.now).test free).cond) }
    ensures next { IfOk result (λ t. t.next ≡ ((expression
        (scoped scope.now.variables.now scope.now.held.now) e.now).test free).next) }
    ensures room { IfOk result (λ t. t.next ≤ free + expression_bulk e.now) }
{
    if let Expr::Op(op, a, b) = e {
        if asks_zero(*op, scope.literal(b.get())) {
            let asked = tested(scope, a.get(), free, out)?;
            return negation(asked, scope.named(b.get()), out);
        }
        if let Some(rel) = relation(*op) {
            let first = operand(scope, a.get(), free, out)?;
            let second = operand(scope, b.get(), first.next, out)?;
            return Ok(Tested {
                cond: Cond::Compare(rel, first.at, second.at),
                next: second.next,
            });
        }
    }
    let word = operand(scope, e, free, out)?;
    Ok(Tested {
        cond: Cond::NonZero(word.at),
        next: word.next,
    })
}

/// Adds the statements of operands in turn. The answer is where their words stand.
pub(crate) fn operands(
    scope: &Scope,
    es: &[Expr],
    free: u32,
    out: &mut Items<Stmt>,
) -> Result<Items<u32>, NoMemory>
    requires { free + expressions_bulk es.now ≤ 4294967295 }
    ensures codes { OnOk result (out.new ≡ out.old ++ codes_of
        (map (expression (scoped scope.now.variables.now scope.now.held.now)) es.now) free) }
    ensures places { IfOk result (λ ys. ys ≡ places_of
        (map (expression (scoped scope.now.variables.now scope.now.held.now)) es.now) free) }
{
    let mut places = Items::new(scope.alloc);
    let mut free = free;
    for e in es {
        let placed = operand(scope, e, free, out)?;
        places.push(placed.at)?;
        free = placed.next;
    }
    Ok(places)
}
