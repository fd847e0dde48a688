// The units of functions. A number past the type's end is given as the type's end.

ghost use Rattle.std.specs.Prelude.{◌≡◌, ◌+◌, min, map, sum, true};
ghost use Rattle.br_flatimp.specs.Sizes.{added, own_units, units, words_for};
ghost use Rattle.br_flatten.specs.Programs.{IsNoLarger};

use br_flatimp::{FlatFunc, Stmt};

/// Whether a function has no more units than another, and no
/// more names than that has names or units.
pub(crate) fn is_no_larger(q: &FlatFunc, p: &FlatFunc) -> bool
    ensures { result ≡ true → IsNoLarger q.now p.now }
{
    let own = units(q);
    let most = units(p);
    own < usize::MAX && own <= most && q.names as usize <= most.max(p.names as usize)
}

fn units(f: &FlatFunc) -> usize
    ensures { result ≡ min (units f.now) 18446744073709551615 }
{
    let passed = f
        .args
        .as_slice()
        .len()
        .saturating_add(f.results.as_slice().len());
    statements_units(f.body.as_slice())
        .saturating_add(passed)
        .saturating_add(8)
}

#[cycle(units)]
#[tactic(auto, using(crate::proofs::StatementUnits::units_of))]
fn statements_units(body: &[Stmt]) -> usize
    ensures { result ≡ min (sum (map (added own_units) body.now)) 18446744073709551615 }
{
    let mut all = 0usize;
    for s in body {
        all = all.saturating_add(statement_units(s));
    }
    all
}

#[cycle(units)]
#[tactic(auto, using(crate::proofs::StatementUnits::units_of))]
fn statement_units(s: &Stmt) -> usize
    ensures { result ≡ min (added own_units s.now) 18446744073709551615 }
{
    match s {
        Stmt::Lit(_, _) | Stmt::Copy(_, _) | Stmt::Op(_, _, _, _) => 1,
        Stmt::Load(_, _, _, _) | Stmt::Store(_, _, _, _) => 1,
        Stmt::Read(_, _) | Stmt::Write(_, _) => 1,
        Stmt::Table(_, _, bytes, _) => words_for(bytes.as_slice().len()) + 1,
        Stmt::Stackalloc(_, _, body) => statements_units(body.as_slice()).saturating_add(1),
        Stmt::If(_, first, second) | Stmt::Loop(first, _, second) => {
            let one = statements_units(first.as_slice());
            let two = statements_units(second.as_slice());
            one.saturating_add(two).saturating_add(1)
        }
        Stmt::Call(xs, _, ys) => {
            let passed = xs.as_slice().len().saturating_add(ys.as_slice().len());
            passed.saturating_add(1)
        }
    }
}

fn words_for(bytes: usize) -> usize
    ensures { result ≡ words_for bytes }
{
    bytes / 4 + if bytes % 4 == 0 { 0 } else { 1 }
}
