// The count of a function's names: the least number above each of them. A number past the
// type's end is given as the type's end.

ghost use Rattle.std.specs.Prelude.{◌≡◌, min};
ghost use Rattle.std.specs.List.{flat_map};
ghost use Rattle.br_flatimp.specs.Parts.{operand_names, statement_names, test_names};
ghost use Rattle.br_flatten.specs.Flatten.{above};

use br_flatimp::{Cond, Operand, Stmt};

/// Above numbers.
#[tactic(auto, using(crate::proofs::StatementNames::names_of))]
pub(crate) fn above(xs: &[u32]) -> u32
    ensures { result ≡ min (above xs.now) 4294967295 }
{
    let mut most = 0;
    for x in xs {
        most = x.saturating_add(1).max(most);
    }
    most
}

/// Above the names in statements.
#[cycle(highest)]
#[tactic(auto, using(crate::proofs::StatementNames::names_of))]
pub(crate) fn above_statements(body: &[Stmt]) -> u32
    ensures { result ≡ min (above (flat_map statement_names body.now)) 4294967295 }
{
    let mut most = 0;
    for s in body {
        most = above_statement(s).max(most);
    }
    most
}

#[cycle(highest)]
#[tactic(auto, using(crate::proofs::StatementNames::names_of))]
fn above_statement(s: &Stmt) -> u32
    ensures { result ≡ min (above (statement_names s.now)) 4294967295 }
{
    match s {
        Stmt::Lit(x, _) => x.saturating_add(1),
        Stmt::Copy(x, y)
        | Stmt::Load(x, _, y, _)
        | Stmt::Store(_, x, y, _)
        | Stmt::Table(x, _, _, y)
        | Stmt::Read(x, y)
        | Stmt::Write(x, y) => x.saturating_add(1).max(y.saturating_add(1)),
        Stmt::Op(x, _, y, z) => x
            .saturating_add(1)
            .max(y.saturating_add(1))
            .max(above_operand(*z)),
        Stmt::Stackalloc(x, _, body) => {
            let most = above_statements(body.as_slice());
            x.saturating_add(1).max(most)
        }
        Stmt::If(test, first, second) | Stmt::Loop(first, test, second) => {
            let one = above_statements(first.as_slice());
            let two = above_statements(second.as_slice());
            above_test(*test).max(one).max(two)
        }
        Stmt::Call(xs, _, ys) => above(xs.as_slice()).max(above(ys.as_slice())),
    }
}

fn above_operand(z: Operand) -> u32
    ensures { result ≡ min (above (operand_names z)) 4294967295 }
{
    match z {
        Operand::Name(y) => y.saturating_add(1),
        Operand::Const(_) => 0,
    }
}

fn above_test(test: Cond) -> u32
    ensures { result ≡ min (above (test_names test)) 4294967295 }
{
    match test {
        Cond::NonZero(y) => y.saturating_add(1),
        Cond::Compare(_, y, z) => y.saturating_add(1).max(z.saturating_add(1)),
    }
}
