// The sets after statements, from the last statement to the first.

ghost use Rattle.std.specs.Prelude.{◌≡◌, ◌++◌, IfOk, IsTrue, List, OnOk, map, reverse};
ghost use Rattle.std.specs.List.{flat_map};
ghost use Rattle.br_flatimp.specs.Liveness.{before, before_all, function_moments};
ghost use Rattle.br_flatimp.specs.Liveness.{live, moments, nothing};
ghost use Rattle.br_flatimp.specs.Parts.{function_names, statement_names};
ghost use Rattle.br_flatimp.specs.WellFormed.{are_below};
ghost use Rattle.br_live.specs.Summaries.{handed};
ghost use Rattle.br_live.specs.Tables.{row, rows, rows_after};
ghost use Rattle.br_live.specs.Turns.{EndsWith, LoopTurn, all_turns, turn_of, turns_of};

use crate::bit_set::BitSet;
use crate::summary::Summary;
use crate::table::LiveTable;
use crate::turn::Turn;
use crate::walk::summary_of_all;
use br_base::NoMemory;
use br_flatimp::{FlatFunc, Stmt};
use std::alloc::Global;

/// Which names are live after each statement of a function: the least that it may be. Each
/// statement is looked at twice, however deep loops stand in one another: for what it and those in
/// its parts read and write, and then for what is live after it. Each time takes a few steps for
/// each 32 names of the function. While it works it takes as much memory as four more sets for each
/// loop, and a few sets for each statement that others stand in, one in the other.
pub fn live_after(alloc: Global, f: &FlatFunc) -> Result<LiveTable, NoMemory>
    requires { IsTrue (are_below f.now.names (function_names f.now)) }
    ensures { IfOk result (λ t. rows t ≡ rows_after f.now.names (function_moments f.now)) }
{
    let mut turns = Vec::new(alloc);
    summary_of_all(alloc, f.names, f.body.as_slice(), &mut turns)?;
    let mut so_far = Summary::new(alloc, f.names)?;
    so_far.own(&[], f.results.as_slice());
    let mut sets = Vec::new(alloc);
    add_sets_of_all(alloc, f.body.as_slice(), &mut so_far, &mut turns, &mut sets)?;
    turn_around(&mut sets);
    Ok(LiveTable::from_sets(sets))
}

fn turn_around(sets: &mut Vec<BitSet>)
    ensures { sets.new.items ≡ reverse sets.old.items }
{
    sets.as_mut_slice().reverse();
}

// Adds the sets after statements in turn, which stand before those of the summary. The last turns
// are those of the loops in them, and are taken.
#[cycle(after)]
fn add_sets_of_all(
    alloc: Global,
    body: &[Stmt],
    so_far: &mut Summary,
    turns: &mut Vec<Turn>,
    sets: &mut Vec<BitSet>,
) -> Result<(), NoMemory>
    requires names { IsTrue (are_below so_far.old.reads.bound (flat_map statement_names body.now)) }
    requires turns { EndsWith
        (map turn_of turns.old.items) (all_turns so_far.old.reads.bound body.now) }
    ensures bound { OnOk result (so_far.new.reads.bound ≡ so_far.old.reads.bound) }
    ensures live { OnOk result
        (handed so_far.new nothing ≡ before_all body.now (handed so_far.old nothing)) }
    ensures turns { OnOk result ((rest : List LoopTurn) →
        map turn_of turns.old.items ≡ rest ++ all_turns so_far.old.reads.bound body.now →
        map turn_of turns.new.items ≡ rest) }
    ensures sets { OnOk result (map row sets.new.items
        ≡ map row sets.old.items ++ reverse (rows_after so_far.old.reads.bound
        (moments (map live body.now) (handed so_far.old nothing)))) }
{
    let mut k = body.len();
    while k > 0 {
        k -= 1;
        add_sets_of(alloc, &body[k], so_far, turns, sets)?;
    }
    Ok(())
}

#[cycle(after)]
fn add_sets_of(
    alloc: Global,
    s: &Stmt,
    so_far: &mut Summary,
    turns: &mut Vec<Turn>,
    sets: &mut Vec<BitSet>,
) -> Result<(), NoMemory>
    requires names { IsTrue (are_below so_far.old.reads.bound (statement_names s.now)) }
    requires turns { EndsWith
        (map turn_of turns.old.items) (turns_of so_far.old.reads.bound s.now) }
    ensures bound { OnOk result (so_far.new.reads.bound ≡ so_far.old.reads.bound) }
    ensures live { OnOk result
        (handed so_far.new nothing ≡ before s.now (handed so_far.old nothing)) }
    ensures turns { OnOk result ((rest : List LoopTurn) →
        map turn_of turns.old.items ≡ rest ++ turns_of so_far.old.reads.bound s.now →
        map turn_of turns.new.items ≡ rest) }
    ensures sets { OnOk result (map row sets.new.items
        ≡ map row sets.old.items ++ reverse (rows_after so_far.old.reads.bound
        ((live s.now).moments (handed so_far.old nothing)))) }
{
    let after = so_far.reads.copy(alloc)?;
    match s {
        Stmt::Stackalloc(_, _, body) => {
            add_sets_of_all(alloc, body.as_slice(), so_far, turns, sets)?;
            so_far.put_own(s);
            sets.push(after)?;
            Ok(())
        }
        Stmt::If(_, first, second) => {
            let mut other = so_far.copy(alloc)?;
            add_sets_of_all(alloc, second.as_slice(), &mut other, turns, sets)?;
            add_sets_of_all(alloc, first.as_slice(), so_far, turns, sets)?;
            so_far.join(&other);
            so_far.put_own(s);
            sets.push(after)?;
            Ok(())
        }
        Stmt::Loop(first, _, last) => {
            match turns.pop() {
                None => unreachable!(),
                Some(turn) => {
                    so_far.read_first(&turn.again);
                    so_far.put_own(s);
                    let mut end = so_far.copy(alloc)?;
                    end.prepend(&turn.opening);
                    add_sets_of_all(alloc, last.as_slice(), &mut end, turns, sets)?;
                    add_sets_of_all(alloc, first.as_slice(), so_far, turns, sets)?;
                    sets.push(after)?;
                    Ok(())
                }
            }
        }
        Stmt::Lit(_, _)
        | Stmt::Copy(_, _)
        | Stmt::Op(_, _, _, _)
        | Stmt::Load(_, _, _, _)
        | Stmt::Store(_, _, _, _)
        | Stmt::Table(_, _, _, _)
        | Stmt::Call(_, _, _)
        | Stmt::Read(_, _)
        | Stmt::Write(_, _) => {
            so_far.put_own(s);
            sets.push(after)?;
            Ok(())
        }
    }
}
