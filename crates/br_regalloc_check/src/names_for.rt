// How many names a function needs for the names that stand in it.

ghost use Rattle.std.specs.Prelude.{◌≡◌, ◌<◌, ◌++◌, suc, max, IsTrue};
ghost use Rattle.std.specs.List.{flat_map};
ghost use Rattle.br_flatimp.specs.Parts.{operand_names, statement_names, test_names};
ghost use Rattle.br_flatimp.specs.WellFormed.{are_below};
ghost use Rattle.br_regalloc_check.specs.Walks.{counted};
ghost use Rattle.br_regalloc_check.specs.Assigned.{names_for};

use br_flatimp::{Cond, Operand, Stmt};

/// One more than the largest name in a function with these arguments, results and statements, or 0.
pub(crate) fn names_for(args: &[u32], results: &[u32], body: &[Stmt]) -> u32
    requires args { IsTrue (are_below 1048576 args.now) }
    requires results { IsTrue (are_below 1048576 results.now) }
    requires body { IsTrue (are_below 1048576 (flat_map statement_names body.now)) }
    ensures { result ≡ names_for (args.now ++ results.now ++ flat_map statement_names body.now) }
{
    let mut names = 0;
    count_each(args, &mut names);
    count_each(results, &mut names);
    count_statements(body, &mut names);
    names
}

#[cycle(names)]
#[tactic(auto, using(crate::proofs::Counting::counted_item))]
fn count_statements(body: &[Stmt], names: &mut u32)
    requires { IsTrue (are_below 1048576 (flat_map statement_names body.now)) }
    ensures { names.new ≡ counted names.old (flat_map statement_names body.now) }
{
    for s in body {
        count_statement(s, names);
    }
}

#[cycle(names)]
#[tactic(auto, using(crate::proofs::Counting::counted_parts))]
fn count_statement(s: &Stmt, names: &mut u32)
    requires { IsTrue (are_below 1048576 (statement_names s.now)) }
    ensures { names.new ≡ counted names.old (statement_names s.now) }
{
    match s {
        Stmt::Lit(x, _) => count(*x, names),
        Stmt::Copy(x, y)
        | Stmt::Load(x, _, y, _)
        | Stmt::Store(_, x, y, _)
        | Stmt::Table(x, _, _, y)
        | Stmt::Read(x, y)
        | Stmt::Write(x, y) => {
            count(*x, names);
            count(*y, names);
        }
        Stmt::Op(x, _, y, z) => {
            count(*x, names);
            count(*y, names);
            count_operand(*z, names);
        }
        Stmt::Stackalloc(x, _, body) => {
            count(*x, names);
            count_statements(body.as_slice(), names);
        }
        Stmt::If(test, first, second) | Stmt::Loop(first, test, second) => {
            count_test(*test, names);
            count_statements(first.as_slice(), names);
            count_statements(second.as_slice(), names);
        }
        Stmt::Call(xs, _, ys) => {
            count_each(xs.as_slice(), names);
            count_each(ys.as_slice(), names);
        }
    }
}

fn count_operand(z: Operand, names: &mut u32)
    requires { IsTrue (are_below 1048576 (operand_names z)) }
    ensures { names.new ≡ counted names.old (operand_names z) }
{
    match z {
        Operand::Name(y) => count(y, names),
        Operand::Const(_) => {}
    }
}

fn count_test(test: Cond, names: &mut u32)
    requires { IsTrue (are_below 1048576 (test_names test)) }
    ensures { names.new ≡ counted names.old (test_names test) }
{
    match test {
        Cond::NonZero(y) => count(y, names),
        Cond::Compare(_, y, z) => {
            count(y, names);
            count(z, names);
        }
    }
}

#[tactic(auto, using(crate::proofs::Counting::counted_number))]
fn count_each(xs: &[u32], names: &mut u32)
    requires { IsTrue (are_below 1048576 xs.now) }
    ensures { names.new ≡ counted names.old xs.now }
{
    for x in xs {
        count(*x, names);
    }
}

fn count(x: u32, names: &mut u32)
    requires { x < 1048576 }
    ensures { names.new ≡ max names.old (suc x) }
{
    if x >= *names {
        *names = x + 1;
    }
}
