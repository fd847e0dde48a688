// How many statements there are.

ghost use Rattle.std.specs.Prelude.{◌≡◌, ◌+◌, ◌<◌, ◌≤◌, ◌^◌, ◌↔◌, IsTrue, map, min, sum};
ghost use Rattle.std.specs.List.{AllByRecursion};
ghost use Rattle.br_flatimp.specs.Sizes.{function_count, statement_count};

use br_flatimp::{FlatFunc, FlatProgram, Stmt};

// Counting ends here: 2 ^ 32.
const MANY: u64 = 4_294_967_296;

/// Whether each function of a program has fewer than 2^32 statements, those in their parts counted.
pub fn have_few_statements(p: &FlatProgram) -> bool
    ensures { IsTrue result ↔ AllByRecursion (λ f. function_count f < 2 ^ 32) p.now.funcs }
{
    let mut rest = p.funcs.as_slice();
    while let [f, others @ ..] = rest {
        if !has_few_statements(f) {
            return false;
        }
        rest = others;
    }
    true
}

/// Whether a function has fewer than 2^32 statements, those in their parts counted.
pub fn has_few_statements(f: &FlatFunc) -> bool
    ensures { IsTrue result ↔ function_count f.now < 2 ^ 32 }
{
    counted_all(f.body.as_slice()) < MANY
}

/// How many statements these are, those in their parts counted.
pub(crate) fn count_all(body: &[Stmt]) -> u32
    requires { sum (map statement_count body.now) < 2 ^ 32 }
    ensures { result ≡ sum (map statement_count body.now) }
{
    counted_all(body) as u32
}

// How many statements these are, or 2^32 where there are more.
#[cycle(count)]
fn counted_all(body: &[Stmt]) -> u64
    ensures { result ≡ min 4294967296 (sum (map statement_count body.now)) }
{
    let mut n = 0;
    for s in body {
        n = together(n, counted(s));
    }
    n
}

#[cycle(count)]
#[tactic(auto, using(crate::proofs::Forms::counts))]
fn counted(s: &Stmt) -> u64
    ensures { result ≡ min 4294967296 (statement_count s.now) }
{
    match s {
        Stmt::Stackalloc(_, _, body) => together(1, counted_all(body.as_slice())),
        Stmt::If(_, first, second) | Stmt::Loop(first, _, second) => {
            let parts = together(
                counted_all(first.as_slice()),
                counted_all(second.as_slice()),
            );
            together(1, parts)
        }
        Stmt::Lit(_, _)
        | Stmt::Copy(_, _)
        | Stmt::Op(_, _, _, _)
        | Stmt::Load(_, _, _, _)
        | Stmt::Store(_, _, _, _)
        | Stmt::Table(_, _, _, _)
        | Stmt::Call(_, _, _)
        | Stmt::Read(_, _)
        | Stmt::Write(_, _) => 1,
    }
}

fn together(m: u64, n: u64) -> u64
    requires first { m ≤ 4294967296 }
    requires second { n ≤ 4294967296 }
    ensures { result ≡ min 4294967296 (m + n) }
{
    (m + n).min(MANY)
}
