// Whether a program meets what `needs` asks for.

ghost use Rattle.std.specs.Prelude.{◌≡◌, ℕ, ◌+◌, ◌<◌, ◌^◌, ◌&&◌, IsTrue, IfOk};
ghost use Rattle.std.specs.Prelude.{length, nat_le, nat_lt, slice_index};
ghost use Rattle.std.specs.List.{list_all};
ghost use Rattle.br_flatimp.specs.Parts.{operand_names, test_names, throughout};
ghost use Rattle.br_flatimp.specs.Sizes.{HasNoRecursion};
ghost use Rattle.br_flatimp.specs.WellFormed.{IsRegisterForm, are_registers, is_in_order};
ghost use Rattle.br_flatimp.specs.WellFormed.{is_passing, is_register_function, uses_registers};

use crate::calls::call_table;
use br_base::NoMemory;
use br_flatimp::{Cond, FlatFunc, FlatProgram, Operand, Stmt, well_formed};
use std::alloc::Global;

pub fn is_register_form(p: &FlatProgram) -> bool
    ensures { IsTrue result → IsRegisterForm p.now.funcs }
{
    well_formed(p) && functions_fit(p.funcs.as_slice())
}

fn functions_fit(funcs: &[FlatFunc]) -> bool
    ensures { result ≡ list_all is_register_function funcs.now }
{
    funcs.iter().all(|f| function_fits(f))
}

fn function_fits(f: &FlatFunc) -> bool
    ensures { result ≡ is_register_function f.now }
{
    are_passed(f.args.as_slice())
        && are_passed(f.results.as_slice())
        && statements_fit(f.body.as_slice())
}

fn are_passed(xs: &[u32]) -> bool
    ensures { result ≡ is_passing xs.now }
{
    are_in_order(10, xs)
}

fn are_in_order(first: u64, xs: &[u32]) -> bool
    requires { first + length xs.now < 2 ^ 64 }
    ensures { result ≡ is_in_order first xs.now }
{
    match xs {
        [] => true,
        [x, others @ ..] => u64::from(*x) == first && are_in_order(first + 1, others),
    }
}

fn are_registers(xs: &[u32]) -> bool
    ensures { result ≡ are_registers xs.now }
{
    xs.iter().all(|x| is_register(*x))
}

fn is_register(x: u32) -> bool
    ensures { result ≡ (nat_le 3 x && nat_le x 31) }
{
    3 <= x && x <= 31
}

#[cycle(forms)]
fn statements_fit(body: &[Stmt]) -> bool
    ensures { result ≡ list_all (throughout uses_registers) body.now }
{
    for s in body {
        if !statement_fits(s) {
            return false;
        }
    }
    true
}

#[cycle(forms)]
#[tactic(auto, using(crate::proofs::Forms::registers_of_parts))]
fn statement_fits(s: &Stmt) -> bool
    ensures { result ≡ throughout uses_registers s.now }
{
    match s {
        Stmt::Lit(x, _) => is_register(*x),
        Stmt::Copy(x, y)
        | Stmt::Load(x, _, y, _)
        | Stmt::Store(_, x, y, _)
        | Stmt::Table(x, _, _, y)
        | Stmt::Read(x, y)
        | Stmt::Write(x, y) => is_register(*x) && is_register(*y),
        Stmt::Op(x, _, y, z) => is_register(*x) && is_register(*y) && operand_fits(*z),
        Stmt::Stackalloc(x, _, body) => {
            if !is_register(*x) {
                return false;
            }
            statements_fit(body.as_slice())
        }
        Stmt::If(test, first, second) | Stmt::Loop(first, test, second) => {
            if !test_fits(*test) {
                return false;
            }
            if !statements_fit(first.as_slice()) {
                return false;
            }
            statements_fit(second.as_slice())
        }
        Stmt::Call(xs, _, ys) => call_fits(xs.as_slice(), ys.as_slice()),
    }
}

fn operand_fits(z: Operand) -> bool
    ensures { result ≡ are_registers (operand_names z) }
{
    match z {
        Operand::Name(y) => is_register(y),
        Operand::Const(_) => true,
    }
}

fn test_fits(test: Cond) -> bool
    ensures { result ≡ are_registers (test_names test) }
{
    match test {
        Cond::NonZero(y) => is_register(y),
        Cond::Compare(_, y, z) => is_register(y) && is_register(z),
    }
}

fn call_fits(xs: &[u32], ys: &[u32]) -> bool
    ensures { result ≡ (are_registers xs.now && are_registers ys.now
        && (is_passing xs.now && is_passing ys.now)) }
{
    are_registers(xs) && are_registers(ys) && are_passed(xs) && are_passed(ys)
}

/// Whether each function calls functions of a higher rank alone, so
/// that none has a path of calls to itself.
pub fn calls_rise(alloc: Global, p: &FlatProgram, ranks: &[u32]) -> Result<bool, NoMemory>
    ensures { IfOk result (λ rise. IsTrue rise → HasNoRecursion p.now.funcs) }
{
    let table = call_table(alloc, p.funcs.as_slice())?;
    for (f, row) in table.as_slice().iter().enumerate() {
        if !row_rises(ranks, f, row.as_slice()) {
            return Ok(false);
        }
    }
    Ok(true)
}

fn row_rises(ranks: &[u32], f: usize, row: &[u32]) -> bool
    ensures { result
        ≡ list_all (λ g. nat_lt (slice_index ranks.now f) (slice_index ranks.now g)) row.now }
{
    let low = rank(ranks, f);
    row.iter().all(|g| low < rank(ranks, *g as usize))
}

fn rank(ranks: &[u32], f: usize) -> u32
    ensures { result ≡ slice_index ranks.now f }
{
    ranks.get(f).copied().unwrap_or(0)
}
