// What one sweep leaves of a function.

ghost use Rattle.std.specs.Prelude.{◌≡◌, ◌++◌, ◌||◌, IfOk, IsTrue, List, OnOk, map, reverse};
ghost use Rattle.std.specs.List.{flat_map};
ghost use Rattle.br_flatimp.specs.Liveness.{nothing};
ghost use Rattle.br_flatimp.specs.Parts.{function_names, statement_names};
ghost use Rattle.br_flatimp.specs.WellFormed.{are_below};
ghost use Rattle.br_live.specs.Summaries.{handed};
ghost use Rattle.br_live.specs.Turns.{EndsWith, LoopTurn, all_turns, turn_of, turns_of};
ghost use Rattle.br_deadcode.specs.Sweeps.{before_left, function_leaves, leaves_of};
ghost use Rattle.br_deadcode.specs.Sweeps.{left_of, put, sweep, swept_function};

use crate::copies::copy;
use crate::dead::is_idle;
use br_base::NoMemory;
use br_flatimp::{FlatFunc, Stmt};
use br_live::{Summary, Turn, summary_of_all};
use sqlite_items::Items;
use std::alloc::Global;

/// What a sweep leaves of a function. `removed` becomes true where it leaves a statement out.
pub(crate) fn sweep_function(
    alloc: Global,
    f: &FlatFunc,
    removed: &mut bool,
) -> Result<FlatFunc, NoMemory>
    requires { IsTrue (are_below f.now.names (function_names f.now)) }
    ensures left { IfOk result (λ q. q ≡ swept_function f.now) }
    ensures removed { OnOk result (removed.new ≡ (removed.old || function_leaves f.now)) }
{
    let mut turns = Vec::new(alloc);
    summary_of_all(alloc, f.names, f.body.as_slice(), &mut turns)?;
    let mut so_far = Summary::new(alloc, f.names)?;
    so_far.own(&[], f.results.as_slice());
    let body = sweep_all(alloc, f.body.as_slice(), &mut so_far, &mut turns, removed)?;
    Ok(FlatFunc {
        name: f.name.copy()?,
        args: Items::from_slice(alloc, f.args.as_slice())?,
        results: Items::from_slice(alloc, f.results.as_slice())?,
        names: f.names,
        body,
    })
}

// What is left of statements in turn, which stand before those of the summary. The last turns are
// those of the loops in them, and are taken.
#[cycle(sweep)]
fn sweep_all(
    alloc: Global,
    body: &[Stmt],
    so_far: &mut Summary,
    turns: &mut Vec<Turn>,
    removed: &mut bool,
) -> Result<Items<Stmt>, NoMemory>
    requires names { IsTrue (are_below so_far.old.reads.bound (flat_map statement_names body.now)) }
    requires turns { EndsWith
        (map turn_of turns.old.items) (all_turns so_far.old.reads.bound body.now) }
    ensures bound { OnOk result (so_far.new.reads.bound ≡ so_far.old.reads.bound) }
    ensures live { OnOk result
        (handed so_far.new nothing ≡ before_left body.now (handed so_far.old nothing)) }
    ensures turns { OnOk result ((rest : List LoopTurn) →
        map turn_of turns.old.items ≡ rest ++ all_turns so_far.old.reads.bound body.now →
        map turn_of turns.new.items ≡ rest) }
    ensures left { IfOk result (λ left. left ≡ left_of body.now (handed so_far.old nothing)) }
    ensures removed { OnOk result
        (removed.new ≡ (removed.old || leaves_of body.now (handed so_far.old nothing))) }
{
    let mut backward = Vec::new(alloc);
    let mut k = body.len();
    while k > 0 {
        k -= 1;
        let left = sweep_one(alloc, &body[k], so_far, turns, removed)?;
        add_left(&mut backward, left)?;
    }
    Ok(turned_around(backward))
}

fn add_left(backward: &mut Vec<Stmt>, left: Option<Stmt>) -> Result<(), NoMemory>
    ensures { OnOk result (reverse backward.new.items ≡ put left (reverse backward.old.items)) }
{
    match left {
        None => Ok(()),
        Some(s) => {
            backward.push(s)?;
            Ok(())
        }
    }
}

fn turned_around(backward: Vec<Stmt>) -> Items<Stmt>
    ensures { result ≡ reverse backward.items }
{
    let mut items = backward;
    items.as_mut_slice().reverse();
    Items::from_vec(items)
}

// What is left of a statement.
#[cycle(sweep)]
fn sweep_one(
    alloc: Global,
    s: &Stmt,
    so_far: &mut Summary,
    turns: &mut Vec<Turn>,
    removed: &mut bool,
) -> Result<Option<Stmt>, NoMemory>
    requires names { IsTrue (are_below so_far.old.reads.bound (statement_names s.now)) }
    requires turns { EndsWith
        (map turn_of turns.old.items) (turns_of so_far.old.reads.bound s.now) }
    ensures bound { OnOk result (so_far.new.reads.bound ≡ so_far.old.reads.bound) }
    ensures live { OnOk result
        (handed so_far.new nothing ≡ (sweep s.now).before (handed so_far.old nothing)) }
    ensures turns { OnOk result ((rest : List LoopTurn) →
        map turn_of turns.old.items ≡ rest ++ turns_of so_far.old.reads.bound s.now →
        map turn_of turns.new.items ≡ rest) }
    ensures left { IfOk result (λ left. left ≡ (sweep s.now).left (handed so_far.old nothing)) }
    ensures removed { OnOk result
        (removed.new ≡ (removed.old || (sweep s.now).leaves_out (handed so_far.old nothing))) }
{
    if is_idle(so_far, s) {
        *removed = true;
        return Ok(None);
    }
    match s {
        Stmt::Stackalloc(x, n, body) => {
            let body = sweep_all(alloc, body.as_slice(), so_far, turns, removed)?;
            so_far.put_own(s);
            Ok(Some(Stmt::Stackalloc(*x, *n, body)))
        }
        Stmt::If(test, first, second) => {
            let mut other = so_far.copy(alloc)?;
            let second = sweep_all(alloc, second.as_slice(), &mut other, turns, removed)?;
            let first = sweep_all(alloc, first.as_slice(), so_far, turns, removed)?;
            so_far.join(&other);
            so_far.put_own(s);
            Ok(Some(Stmt::If(*test, first, second)))
        }
        Stmt::Loop(first, test, last) => {
            match turns.pop() {
                None => unreachable!(),
                Some(turn) => {
                    so_far.read_first(&turn.again);
                    so_far.put_own(s);
                    let mut end = so_far.copy(alloc)?;
                    end.prepend(&turn.opening);
                    let last = sweep_all(alloc, last.as_slice(), &mut end, turns, removed)?;
                    let first = sweep_all(alloc, first.as_slice(), so_far, turns, removed)?;
                    Ok(Some(Stmt::Loop(first, *test, last)))
                }
            }
        }
        Stmt::Lit(_, _)
        | Stmt::Copy(_, _)
        | Stmt::Op(_, _, _, _)
        | Stmt::Load(_, _, _, _)
        | Stmt::Store(_, _, _, _)
        | Stmt::Table(_, _, _, _)
        | Stmt::Call(_, _, _)
        | Stmt::Read(_, _)
        | Stmt::Write(_, _) => {
            so_far.put_own(s);
            Ok(Some(copy(alloc, s)?))
        }
    }
}
