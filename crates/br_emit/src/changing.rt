// The registers that statements change, and those that their calls may change.

ghost use Rattle.std.specs.Prelude.{◌≡◌, ℕ, ◌<◌, ◌||◌, ◌++◌, true};
ghost use Rattle.std.specs.List.{flat_map, list_any};
ghost use Rattle.br_flatimp.specs.Liveness.{is_in};
ghost use Rattle.br_flatimp.specs.Parts.{function_names, gathered, own_callees, written};
ghost use Rattle.br_emit.specs.Registers.{forgets_of, has};

use crate::sets::{all_of, set_at, union};
use br_flatimp::{FlatFunc, Stmt};

/// The registers that statements write, or that their calls may change.
#[cycle(changing)]
pub fn changed_by_all(sets: &[u32], body: &[Stmt]) -> u32
    ensures { (x : ℕ) → x < 32 → has result x ≡ (is_in (flat_map (gathered written) body.now) x
        || list_any (λ g. forgets_of sets.now g x) (flat_map (gathered own_callees) body.now)) }
{
    let mut changed = 0;
    for s in body {
        changed = union(changed, changed_by(sets, s));
    }
    changed
}

// Those of two parts.
#[cycle(changing)]
fn changed_by_two(sets: &[u32], first: &[Stmt], second: &[Stmt]) -> u32
    ensures { (x : ℕ) → x < 32 → has result x
        ≡ (is_in (flat_map (gathered written) first.now ++ flat_map (gathered written) second.now) x
        || list_any (λ g. forgets_of sets.now g x)
        (flat_map (gathered own_callees) first.now ++ flat_map (gathered own_callees) second.now)) }
{
    union(changed_by_all(sets, first), changed_by_all(sets, second))
}

// Those of a statement.
#[cycle(changing)]
fn changed_by(sets: &[u32], s: &Stmt) -> u32
    ensures { (x : ℕ) → x < 32 → has result x ≡ (is_in (gathered written s.now) x
        || list_any (λ g. forgets_of sets.now g x) (gathered own_callees s.now)) }
{
    match s {
        Stmt::Lit(x, _)
        | Stmt::Copy(x, _)
        | Stmt::Op(x, _, _, _)
        | Stmt::Load(x, _, _, _)
        | Stmt::Table(x, _, _, _)
        | Stmt::Read(x, _) => all_of(&[*x]),
        Stmt::Store(_, _, _, _) | Stmt::Write(_, _) => all_of(&[]),
        Stmt::Stackalloc(x, _, body) => union(all_of(&[*x]), changed_by_all(sets, body.as_slice())),
        Stmt::If(_, first, second) => changed_by_two(sets, first.as_slice(), second.as_slice()),
        Stmt::Loop(first, _, last) => changed_by_two(sets, first.as_slice(), last.as_slice()),
        Stmt::Call(xs, g, _) => union(all_of(xs.as_slice()), set_at(sets, *g as usize)),
    }
}

/// Names of a function: its arguments, and what it writes.
pub fn names_of(f: &FlatFunc) -> u32
    ensures { (x : ℕ) → has result x ≡ true → is_in (function_names f.now) x ≡ true }
{
    union(
        all_of(f.args.as_slice()),
        changed_by_all(&[], f.body.as_slice()),
    )
}
