// Tests: how operations compare their words, and the test that holds where another does not.

ghost use Rattle.std.specs.Prelude.{◌≡◌, ◌<◌, ◌≤◌, ◌+◌, ◌++◌, IfOk, OnOk};
ghost use Rattle.br_flatimp.specs.declared.program.Cond.TheVariants.{NonZero};
ghost use Rattle.br_flatten.specs.Tests.{next_turned, opposite, relation, turned, zero_before};

use br_base::NoMemory;
use br_flatimp::{Cond, Rel, Stmt};
use br_words::BinOp;
use sqlite_items::Items;

/// A test, and the first temporary that is free after it.
#[derive(Clone, Copy)]
pub(crate) struct Tested {
    pub(crate) cond: Cond,
    pub(crate) next: u32,
}

/// How an operation compares its words, where it does.
pub(crate) fn relation(op: BinOp) -> Option<Rel>
    ensures { result ≡ relation op }
{
    match op {
        BinOp::Lts => Some(Rel::Lts),
        BinOp::Ltu => Some(Rel::Ltu),
        BinOp::Eq => Some(Rel::Eq),
        BinOp::Add | BinOp::Sub | BinOp::Mul | BinOp::Mulhuu | BinOp::Divu | BinOp::Remu => None,
        BinOp::And | BinOp::Or | BinOp::Xor | BinOp::Sru | BinOp::Slu | BinOp::Srs => None,
    }
}

fn opposite(rel: Rel) -> Rel
    ensures { result ≡ opposite rel }
{
    match rel {
        Rel::Eq => Rel::Ne,
        Rel::Ne => Rel::Eq,
        Rel::Lts => Rel::Ges,
        Rel::Ges => Rel::Lts,
        Rel::Ltu => Rel::Geu,
        Rel::Geu => Rel::Ltu,
    }
}

/// The test that holds where another does not, with the statements that it needs,
/// where a name may hold the literal 0.
pub(crate) fn negation(
    t: Tested,
    zero: Option<u32>,
    out: &mut Items<Stmt>,
) -> Result<Tested, NoMemory>
    requires { t.next < 4294967295 }
    ensures before { OnOk result (out.new ≡ out.old ++ zero_before zero t.cond t.next) }
    ensures cond { IfOk result (λ q. q.cond ≡ turned zero t.cond t.next) }
    ensures next { IfOk result (λ q. q.next ≡ next_turned zero t.cond t.next) }
    ensures room { IfOk result (λ q. q.next ≤ t.next + 1) }
{
    match t.cond {
        Cond::Compare(rel, y, z) => Ok(Tested {
            cond: Cond::Compare(opposite(rel), y, z),
            next: t.next,
        }),
        Cond::NonZero(y) => compared_with_zero(y, t.next, zero, out),
    }
}

// The test whether a word is 0, where the temporaries from a number on are free.
fn compared_with_zero(
    y: u32,
    free: u32,
    zero: Option<u32>,
    out: &mut Items<Stmt>,
) -> Result<Tested, NoMemory>
    requires { free < 4294967295 }
    ensures before { OnOk result (out.new ≡ out.old ++ zero_before zero (NonZero y) free) }
    ensures cond { IfOk result (λ q. q.cond ≡ turned zero (NonZero y) free) }
    ensures next { IfOk result (λ q. q.next ≡ next_turned zero (NonZero y) free) }
    ensures room { IfOk result (λ q. q.next ≤ free + 1) }
{
    if let Some(z) = zero {
        return Ok(Tested {
            cond: Cond::Compare(Rel::Eq, y, z),
            next: free,
        });
    }
    out.push(Stmt::Lit(free, 0))?;
    Ok(Tested {
        cond: Cond::Compare(Rel::Eq, y, free),
        next: free + 1,
    })
}
