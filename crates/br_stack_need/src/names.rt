// How many different names a function has, by a flag for each of the 32 registers.

ghost use Rattle.std.specs.Prelude.{◌≡◌, ◌+◌, true, IsTrue, length, slice_set, eqb, count_by, ◌≤◌};
ghost use Rattle.std.specs.List.{flat_map};
ghost use Rattle.std.specs.Set.{distinct_count};
ghost use Rattle.br_flatimp.specs.Parts.{function_names, operand_names};
ghost use Rattle.br_flatimp.specs.Parts.{statement_names, test_names};
ghost use Rattle.br_flatimp.specs.WellFormed.{are_below};
ghost use Rattle.br_stack_need.specs.Marks.{marked};

use br_flatimp::{Cond, FlatFunc, Operand, Stmt};

const REGISTERS: usize = 32;

/// How many different names a function has, where each is the number of a register.
pub fn name_count(f: &FlatFunc) -> u32
    requires { IsTrue (are_below 32 (function_names f.now)) }
    ensures value { result ≡ distinct_count eqb (function_names f.now) }
    ensures few { result ≤ 32 }
{
    let mut seen = [false; REGISTERS];
    mark_each(f.args.as_slice(), &mut seen);
    mark_each(f.results.as_slice(), &mut seen);
    mark_statements(f.body.as_slice(), &mut seen);
    marks(&seen)
}

fn marks(seen: &[bool]) -> u32
    requires { length seen.now ≡ REGISTERS }
    ensures value { result ≡ count_by (λ b. b) seen.now }
    ensures few { result ≤ 32 }
{
    seen.iter().filter(|b| **b).count() as u32
}

#[cycle(names)]
#[tactic(auto, using(crate::proofs::Marking::marked_item))]
fn mark_statements(body: &[Stmt], seen: &mut [bool])
    ensures { seen.new ≡ marked seen.old (flat_map statement_names body.now) }
{
    for s in body {
        mark_statement(s, seen);
    }
}

#[cycle(names)]
#[tactic(auto, using(crate::proofs::Marking::marked_parts))]
fn mark_statement(s: &Stmt, seen: &mut [bool])
    ensures { seen.new ≡ marked seen.old (statement_names s.now) }
{
    match s {
        Stmt::Lit(x, _) => mark(*x, seen),
        Stmt::Copy(x, y)
        | Stmt::Load(x, _, y, _)
        | Stmt::Store(_, x, y, _)
        | Stmt::Table(x, _, _, y)
        | Stmt::Read(x, y)
        | Stmt::Write(x, y) => {
            mark(*x, seen);
            mark(*y, seen);
        }
        Stmt::Op(x, _, y, z) => {
            mark(*x, seen);
            mark(*y, seen);
            mark_operand(*z, seen);
        }
        Stmt::Stackalloc(x, _, body) => {
            mark(*x, seen);
            mark_statements(body.as_slice(), seen);
        }
        Stmt::If(test, first, second) | Stmt::Loop(first, test, second) => {
            mark_test(*test, seen);
            mark_statements(first.as_slice(), seen);
            mark_statements(second.as_slice(), seen);
        }
        Stmt::Call(xs, _, ys) => {
            mark_each(xs.as_slice(), seen);
            mark_each(ys.as_slice(), seen);
        }
    }
}

fn mark_operand(z: Operand, seen: &mut [bool])
    ensures { seen.new ≡ marked seen.old (operand_names z) }
{
    match z {
        Operand::Name(y) => mark(y, seen),
        Operand::Const(_) => {}
    }
}

fn mark_test(test: Cond, seen: &mut [bool])
    ensures { seen.new ≡ marked seen.old (test_names test) }
{
    match test {
        Cond::NonZero(y) => mark(y, seen),
        Cond::Compare(_, y, z) => {
            mark(y, seen);
            mark(z, seen);
        }
    }
}

#[tactic(auto, using(crate::proofs::Marking::marked_number))]
fn mark_each(xs: &[u32], seen: &mut [bool])
    ensures { seen.new ≡ marked seen.old xs.now }
{
    for x in xs {
        mark(*x, seen);
    }
}

fn mark(x: u32, seen: &mut [bool])
    ensures { seen.new ≡ slice_set seen.old x true }
{
    let at = x as usize;
    if at < seen.len() {
        seen[at] = true;
    }
}
