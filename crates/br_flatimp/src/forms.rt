// Which flat programs are well formed.

ghost use Rattle.std.specs.Prelude.{◌≡◌, ◌==◌, ◌%◌, ◌&&◌, slice_get, nat_lt};
ghost use Rattle.std.specs.List.{list_all, list_any};
ghost use Rattle.std.specs.Str.{bytes_eq};
ghost use Rattle.br_flatimp.specs.Parts.{test_names, operand_names};
ghost use Rattle.br_flatimp.specs.WellFormed.{all_differ, are_below, counts_fit, fits_operation};
ghost use Rattle.br_flatimp.specs.WellFormed.{is_between, is_immediate, is_list_of_names};
ghost use Rattle.br_flatimp.specs.WellFormed.{is_well_formed, is_well_formed_function};
ghost use Rattle.br_flatimp.specs.WellFormed.{is_well_formed_head, is_well_formed_statement};
ghost use Rattle.br_flatimp.specs.WellFormed.{names_differ, operand_fits};

use crate::program::{Cond, FlatFunc, FlatProgram, Operand, Stmt};
use br_words::BinOp;

// The most names of a function, and the most arguments and results.
const MOST_NAMES: u32 = 1_048_576;

const MOST_PASSED: usize = 8;

/// Whether a program's names, counts, callees, offsets, sizes and constants are in range. The
/// functions have different names. Each has at most 1,048,576 names, at most 8 arguments and
/// at most 8 results. Each name is below the count of its function's names. A call has the
/// counts of the function that it calls. Arguments, results and the results of a call have no
/// repeats. A byte offset is from -2048 to 2047, a buffer's size is a multiple of 4, and a
/// constant is one that its operation may have.
pub fn well_formed(p: &FlatProgram) -> bool
    ensures { result ≡ is_well_formed p.now.funcs }
{
    let funcs = p.funcs.as_slice();
    names_differ(funcs) && functions_fit(funcs)
}

// The heads come first, so that no list of names that is compared has more than eight of them.
fn functions_fit(funcs: &[FlatFunc]) -> bool
    ensures { result ≡ list_all (is_well_formed_function funcs.now) funcs.now }
{
    heads_fit(funcs) && bodies_fit(funcs)
}

fn names_differ(funcs: &[FlatFunc]) -> bool
    ensures { result ≡ names_differ funcs.now }
{
    let mut rest = funcs;
    while let [f, others @ ..] = rest {
        if stands_among(f.name.bytes(), others) {
            return false;
        }
        rest = others;
    }
    true
}

fn stands_among(name: &[u8], funcs: &[FlatFunc]) -> bool
    ensures { result ≡ list_any (λ g. bytes_eq g.name name.now) funcs.now }
{
    funcs.iter().any(|g| g.name.bytes() == name)
}

fn heads_fit(funcs: &[FlatFunc]) -> bool
    ensures { result ≡ list_all is_well_formed_head funcs.now }
{
    funcs.iter().all(|f| head_fits(f))
}

fn head_fits(f: &FlatFunc) -> bool
    ensures { result ≡ is_well_formed_head f.now }
{
    f.names <= MOST_NAMES
        && are_names(f.names, f.args.as_slice())
        && are_names(f.names, f.results.as_slice())
}

fn are_names(names: u32, xs: &[u32]) -> bool
    ensures { result ≡ is_list_of_names names xs.now }
{
    xs.len() <= MOST_PASSED && are_below(names, xs) && all_differ(xs)
}

fn are_below(names: u32, xs: &[u32]) -> bool
    ensures { result ≡ are_below names xs.now }
{
    xs.iter().all(|x| *x < names)
}

fn all_differ(xs: &[u32]) -> bool
    ensures { result ≡ all_differ xs.now }
{
    let mut rest = xs;
    while let [x, others @ ..] = rest {
        if is_among(*x, others) {
            return false;
        }
        rest = others;
    }
    true
}

fn is_among(x: u32, xs: &[u32]) -> bool
    ensures { result ≡ list_any (λ y. y == x) xs.now }
{
    xs.iter().any(|y| *y == x)
}

fn bodies_fit(funcs: &[FlatFunc]) -> bool
    ensures { result
        ≡ list_all (λ f. list_all (is_well_formed_statement funcs.now f.names) f.body) funcs.now }
{
    funcs
        .iter()
        .all(|f| statements_fit(funcs, f.names, f.body.as_slice()))
}

#[cycle(statement)]
fn statements_fit(funcs: &[FlatFunc], names: u32, body: &[Stmt]) -> bool
    ensures { result ≡ list_all (is_well_formed_statement funcs.now names) body.now }
{
    for s in body {
        if !statement_fits(funcs, names, s) {
            return false;
        }
    }
    true
}

#[cycle(statement)]
fn statement_fits(funcs: &[FlatFunc], names: u32, s: &Stmt) -> bool
    ensures { result ≡ is_well_formed_statement funcs.now names s.now }
{
    match s {
        Stmt::Lit(x, _) => *x < names,
        Stmt::Copy(x, y) | Stmt::Read(x, y) | Stmt::Write(x, y) | Stmt::Table(x, _, _, y) => {
            *x < names && *y < names
        }
        Stmt::Op(x, op, y, z) => {
            *x < names && *y < names && operand_below(names, *z) && operand_fits(*op, *z)
        }
        Stmt::Load(x, _, y, offset) | Stmt::Store(_, x, y, offset) => {
            *x < names && *y < names && is_offset(*offset)
        }
        Stmt::Stackalloc(x, n, body) => {
            if !buffer_fits(names, *x, *n) {
                return false;
            }
            statements_fit(funcs, names, body.as_slice())
        }
        Stmt::If(test, first, second) | Stmt::Loop(first, test, second) => {
            if !test_below(names, *test) {
                return false;
            }
            if !statements_fit(funcs, names, first.as_slice()) {
                return false;
            }
            statements_fit(funcs, names, second.as_slice())
        }
        Stmt::Call(xs, g, ys) => {
            are_below(names, xs.as_slice())
                && are_below(names, ys.as_slice())
                && counts_fit(funcs, *g, xs.len(), ys.len())
                && all_differ(xs.as_slice())
        }
    }
}

// A buffer of n bytes whose address goes to x.
fn buffer_fits(names: u32, x: u32, n: u32) -> bool
    ensures { result ≡ (nat_lt x names && (n % 4 == 0)) }
{
    x < names && n % 4 == 0
}

fn operand_below(names: u32, z: Operand) -> bool
    ensures { result ≡ are_below names (operand_names z) }
{
    match z {
        Operand::Name(y) => y < names,
        Operand::Const(_) => true,
    }
}

fn operand_fits(op: BinOp, z: Operand) -> bool
    ensures { result ≡ operand_fits op z }
{
    match z {
        Operand::Name(_) => true,
        Operand::Const(c) => constant_fits(op, c),
    }
}

/// Whether a constant, as a signed number, may be the second operand of an operation: from -2048 to
/// 2047 as in the I-type instructions of the RISC-V manual (section 2.4), for a difference the
/// opposites of these, for a shift from 0 to 31, and none for a product, a quotient or a remainder.
pub fn constant_fits(op: BinOp, c: i32) -> bool
    ensures { result ≡ fits_operation op c }
{
    match op {
        BinOp::Add | BinOp::And | BinOp::Or | BinOp::Xor | BinOp::Lts | BinOp::Ltu | BinOp::Eq =>
            is_offset(c),
        BinOp::Sub => -2047 <= c && c <= 2048,
        BinOp::Sru | BinOp::Slu | BinOp::Srs => 0 <= c && c <= 31,
        BinOp::Mul | BinOp::Mulhuu | BinOp::Divu | BinOp::Remu => false,
    }
}

fn is_offset(c: i32) -> bool
    ensures { result ≡ is_immediate c }
{
    -2048 <= c && c <= 2047
}

fn test_below(names: u32, test: Cond) -> bool
    ensures { result ≡ are_below names (test_names test) }
{
    match test {
        Cond::NonZero(y) => y < names,
        Cond::Compare(_, y, z) => y < names && z < names,
    }
}

fn counts_fit(funcs: &[FlatFunc], g: u32, results: usize, args: usize) -> bool
    ensures { result ≡ counts_fit (slice_get funcs.now g) results args }
{
    match funcs.get(g as usize) {
        Some(f) => results == f.results.len() && args == f.args.len(),
        None => false,
    }
}
