// The registers that a call of each function may change beside its results: those that no caller
// misses. They are live after no call of it, and each of its callers has them among its names or
// may change them too. A function that nobody calls may change each register.

ghost use Rattle.std.specs.Prelude.{◌≡◌, ℕ, ◌≤◌, ◌&&◌, ◌||◌, ◌++◌, true};
ghost use Rattle.std.specs.Prelude.{false, length, map, vec_capacity};
ghost use Rattle.std.specs.List.{AllByRecursion, flat_map};
ghost use Rattle.br_flatimp.specs.Liveness.{function_moments, is_in, live, moments};
ghost use Rattle.br_flatimp.specs.Parts.{callees, function_names, gathered, own_callees};
ghost use Rattle.br_flatimp.specs.Renaming.{ForgetsDead, ReadsNoForgotten};
ghost use Rattle.br_flatimp.specs.Values.{Names};
ghost use Rattle.br_emit.specs.Registers.{Below, IsClosed, Narrowed, forgets_of, has};

use crate::changing::names_of;
use crate::flow::{apply, at_test, flow_of, flow_of_all, read_by};
use crate::sets::{EVERY, all_of, common, is_within, set_at, union, without};
use br_flatimp::{FlatFunc, Stmt};

// How often the names of callers are looked at, at most. A time more is needed where a function
// stands before a caller of it whose own set has changed.
const ROUNDS: u32 = 32;

/// As many sets with every register as there are functions, in place of those before.
pub fn fill(sets: &mut Vec<u32>, count: usize)
    requires { count ≤ vec_capacity sets.old }
    ensures { vec_capacity sets.new ≡ vec_capacity sets.old }
{
    sets.clear();
    for _n in 0..count {
        sets.push_reserved(EVERY);
    }
}

/// Takes out of the set of each function what a caller may miss.
pub fn find_forgotten(sets: &mut [u32], funcs: &[FlatFunc])
    ensures dead { ReadsNoForgotten (forgets_of sets.new) funcs.now }
    ensures closed { IsClosed (forgets_of sets.new) funcs.now }
{
    note_program(sets, funcs);
    settle(sets, funcs);
}

// Takes registers out of the set of a function.
fn spare(sets: &mut [u32], g: u32, taken: u32)
    ensures narrowed { Narrowed sets.new sets.old }
    ensures taken { (x : ℕ) → has taken x ≡ true → forgets_of sets.new g x ≡ false }
{
    let g = g as usize;
    if g < sets.len() {
        sets[g] = without(sets[g], taken);
    }
}

// ---- what is live after calls

fn note_program(sets: &mut [u32], funcs: &[FlatFunc])
    ensures { ReadsNoForgotten (forgets_of sets.new) funcs.now }
{
    for f in funcs {
        note_function(sets, f);
    }
}

fn note_function(sets: &mut [u32], f: &FlatFunc)
    ensures narrowed { Narrowed sets.new sets.old }
    ensures dead { AllByRecursion (ForgetsDead (forgets_of sets.new)) (function_moments f.now) }
{
    note_all(sets, f.body.as_slice(), all_of(f.results.as_slice()));
}

// Takes out of the sets what is live after calls in statements, by what is live after these.
#[cycle(noting)]
fn note_all(sets: &mut [u32], body: &[Stmt], after: u32)
    ensures narrowed { Narrowed sets.new sets.old }
    ensures dead { (end : Names) → Below end (has after) →
        AllByRecursion (ForgetsDead (forgets_of sets.new)) (moments (map live body.now) end) }
{
    let mut so_far = after;
    let mut k = body.len();
    while k > 0 {
        k -= 1;
        note(sets, &body[k], so_far);
        so_far = apply(flow_of(&body[k]), so_far);
    }
}

#[cycle(noting)]
fn note(sets: &mut [u32], s: &Stmt, after: u32)
    ensures narrowed { Narrowed sets.new sets.old }
    ensures dead { (end : Names) → Below end (has after) →
        AllByRecursion (ForgetsDead (forgets_of sets.new)) ((live s.now).moments end) }
{
    match s {
        Stmt::Stackalloc(_, _, body) => note_all(sets, body.as_slice(), after),
        Stmt::If(_, first, second) => {
            note_all(sets, first.as_slice(), after);
            note_all(sets, second.as_slice(), after);
        }
        Stmt::Loop(first, _, last) => {
            let opening = flow_of_all(first.as_slice());
            let closing = flow_of_all(last.as_slice());
            let turn = apply(at_test(opening, read_by(s), closing), after);
            note_all(sets, first.as_slice(), turn);
            note_all(sets, last.as_slice(), apply(opening, turn));
        }
        Stmt::Call(xs, g, _) => spare(sets, *g, without(after, all_of(xs.as_slice()))),
        Stmt::Lit(_, _)
        | Stmt::Copy(_, _)
        | Stmt::Op(_, _, _, _)
        | Stmt::Load(_, _, _, _)
        | Stmt::Store(_, _, _, _)
        | Stmt::Table(_, _, _, _)
        | Stmt::Read(_, _)
        | Stmt::Write(_, _) => {}
    }
}

// ---- names of callers

// Takes out of each set what is no name of a caller, and in no caller's set. Where that does not
// come to an end soon, no call may change any register.
fn settle(sets: &mut [u32], funcs: &[FlatFunc])
    ensures narrowed { Narrowed sets.new sets.old }
    ensures closed { IsClosed (forgets_of sets.new) funcs.now }
{
    if !narrow_often(sets, funcs) {
        empty(sets);
    }
}

// Takes every register out of each set.
fn empty(sets: &mut [u32])
    ensures { (g x : ℕ) → forgets_of sets.new g x ≡ false }
{
    for k in 0..sets.len() {
        sets[k] = 0;
    }
}

// Takes out of the sets what callers do not allow until there is nothing to
// take, and answers whether it came to that.
fn narrow_often(sets: &mut [u32], funcs: &[FlatFunc]) -> bool
    ensures narrowed { Narrowed sets.new sets.old }
    ensures closed { result ≡ true → IsClosed (forgets_of sets.new) funcs.now }
{
    let mut steady = false;
    let mut rounds = ROUNDS;
    while rounds > 0 && !steady {
        rounds -= 1;
        steady = narrow_program(sets, funcs);
    }
    steady
}

// Takes out of the sets once what callers do not allow, from the last function to the first, and
// answers whether there was nothing to take.
fn narrow_program(sets: &mut [u32], funcs: &[FlatFunc]) -> bool
    ensures narrowed { Narrowed sets.new sets.old }
    ensures closed { result ≡ true → IsClosed (forgets_of sets.new) funcs.now }
{
    let mut steady = true;
    let mut n = funcs.len();
    while n > 0 {
        n -= 1;
        let one = narrow_callees(sets, n, &funcs[n]);
        steady = both(steady, one);
    }
    steady
}

// Takes out of the sets of the callees of the function numbered n what is
// no name of it, and not in its own set.
fn narrow_callees(sets: &mut [u32], n: usize, f: &FlatFunc) -> bool
    ensures narrowed { Narrowed sets.new sets.old }
    ensures same { result ≡ true → sets.new ≡ sets.old }
    ensures closed { result ≡ true → (g : ℕ) → is_in (callees f.now) g ≡ true → (x : ℕ) →
        forgets_of sets.old g x ≡ true →
        (forgets_of sets.old n x || is_in (function_names f.now) x) ≡ true }
{
    let own = union(set_at(sets, n), names_of(f));
    narrow_all(sets, f.body.as_slice(), own)
}

fn both(a: bool, b: bool) -> bool
    ensures { result ≡ (a && b) }
{
    a && b
}

// Takes out of the sets of functions that statements call what is not allowed, and
// answers whether there was nothing to take.
#[cycle(narrowing)]
fn narrow_all(sets: &mut [u32], body: &[Stmt], allowed: u32) -> bool
    ensures narrowed { Narrowed sets.new sets.old }
    ensures same { result ≡ true → sets.new ≡ sets.old }
    ensures within { result ≡ true → (g : ℕ) →
        is_in (flat_map (gathered own_callees) body.now) g ≡ true →
        (x : ℕ) → forgets_of sets.old g x ≡ true → has allowed x ≡ true }
{
    let mut within = true;
    for s in body {
        let one = narrow(sets, s, allowed);
        within = both(within, one);
    }
    within
}

#[cycle(narrowing)]
fn narrow_two(sets: &mut [u32], first: &[Stmt], second: &[Stmt], allowed: u32) -> bool
    ensures narrowed { Narrowed sets.new sets.old }
    ensures same { result ≡ true → sets.new ≡ sets.old }
    ensures within { result ≡ true → (g : ℕ) →
        is_in (flat_map (gathered own_callees) first.now
        ++ flat_map (gathered own_callees) second.now) g ≡ true →
        (x : ℕ) → forgets_of sets.old g x ≡ true → has allowed x ≡ true }
{
    let one = narrow_all(sets, first, allowed);
    let other = narrow_all(sets, second, allowed);
    both(one, other)
}

#[cycle(narrowing)]
fn narrow(sets: &mut [u32], s: &Stmt, allowed: u32) -> bool
    ensures narrowed { Narrowed sets.new sets.old }
    ensures same { result ≡ true → sets.new ≡ sets.old }
    ensures within { result ≡ true → (g : ℕ) → is_in (gathered own_callees s.now) g ≡ true →
        (x : ℕ) → forgets_of sets.old g x ≡ true → has allowed x ≡ true }
{
    match s {
        Stmt::Call(_, g, _) => narrow_one(sets, *g, allowed),
        Stmt::Stackalloc(_, _, body) => narrow_all(sets, body.as_slice(), allowed),
        Stmt::If(_, first, second) => narrow_two(
            sets,
            first.as_slice(),
            second.as_slice(),
            allowed,
        ),
        Stmt::Loop(first, _, last) => narrow_two(sets, first.as_slice(), last.as_slice(), allowed),
        Stmt::Lit(_, _)
        | Stmt::Copy(_, _)
        | Stmt::Op(_, _, _, _)
        | Stmt::Load(_, _, _, _)
        | Stmt::Store(_, _, _, _)
        | Stmt::Table(_, _, _, _)
        | Stmt::Read(_, _)
        | Stmt::Write(_, _) => true,
    }
}

// The same for one function.
fn narrow_one(sets: &mut [u32], g: u32, allowed: u32) -> bool
    ensures narrowed { Narrowed sets.new sets.old }
    ensures same { result ≡ true → sets.new ≡ sets.old }
    ensures within { result ≡ true → (x : ℕ) → forgets_of sets.old g x ≡ true →
        has allowed x ≡ true }
{
    let set = set_at(sets, g as usize);
    if is_within(set, allowed) {
        true
    } else {
        spare(sets, g, without(set, allowed));
        false
    }
}
