// Which new names functions may take.

ghost use Rattle.std.specs.Prelude.{◌≡◌, ℕ, ◌<◌, ◌≤◌, ◌^◌, ◌↔◌, IsTrue};
ghost use Rattle.std.specs.Prelude.{length, map, slice_index, sum};
ghost use Rattle.br_flatimp.specs.Liveness.{before, before_all, function_moments, live, moments};
ghost use Rattle.br_flatimp.specs.Parts.{function_names};
ghost use Rattle.br_flatimp.specs.Sizes.{function_count, statement_count};
ghost use Rattle.br_flatimp.specs.Values.{Names};
ghost use Rattle.br_flatimp.specs.WellFormed.{are_below};
ghost use Rattle.br_live.specs.Tables.{rows, rows_after};
ghost use Rattle.br_regalloc_check.specs.Accepted.{IsAccepted};
ghost use Rattle.br_regalloc_check.specs.Walks.{AreApartBelow, HaveBound, StandsAt};

use crate::apart::{are_names, differ};
use crate::before::{is_apart_before, is_live_before};
use crate::walk::may_rename_all;
use br_flatimp::{FlatFunc, Proposal, Stmt, loops_take_one_turn};
use br_live::LiveTable;

/// Whether a function may take the new names of a proposal, where the table says what is live after
/// its statements: there is one new name for each of its names, and each is below their count. Two
/// different names that are live at one point get different ones. The new name of a name that is
/// written is that of no other name that is live after the write: for a buffer, before its body.
/// The arguments get new names that differ, the results do, and the results of each call. It takes
/// no memory. For each name that a statement writes it takes a step for each word of the set after
/// the statement, and 32 for each that is not 0. For each buffer, and for each name that is live at
/// the function's start, it takes a few for each name of the function.
pub fn accepts(f: &FlatFunc, live: &LiveTable, p: &Proposal) -> bool
    requires names { IsTrue (are_below f.now.names (function_names f.now)) }
    requires count { function_count f.now < 2 ^ 32 }
    requires live { rows live.now ≡ rows_after f.now.names (function_moments f.now) }
    ensures { IsTrue result ↔ IsAccepted f.now p.now.to }
{
    loops_take_one_turn();
    let to = p.to.as_slice();
    if !are_names(f.names, to) {
        return false;
    }
    if !differ(to, f.args.as_slice()) {
        return false;
    }
    if !differ(to, f.results.as_slice()) {
        return false;
    }
    let body = f.body.as_slice();
    if !are_apart_at_start(live, to, body) {
        return false;
    }
    let mut at = 0;
    may_rename_all(live, to, body, &mut at)
}

// Whether no two names that are live before the first statement get one new name.
fn are_apart_at_start(table: &LiveTable, to: &[u32], body: &[Stmt]) -> bool
    requires bound { HaveBound (length to.now) (rows table.now) }
    requires count { length (rows table.now) < 2 ^ 32 }
    requires few { length to.now < 2 ^ 32 }
    requires room { sum (map statement_count body.now) ≤ length (rows table.now) }
    ensures { (names : ℕ) (after : Names) →
        StandsAt (rows table.now) 0 names (moments (map live body.now) after) →
        (IsTrue result ↔ (0 < length body.now →
        AreApartBelow (length to.now) (slice_index to.now) (before_all body.now after))) }
{
    match body {
        [s, ..] => are_apart_before(table, to, s),
        [] => true,
    }
}

fn are_apart_before(table: &LiveTable, to: &[u32], s: &Stmt) -> bool
    requires bound { HaveBound (length to.now) (rows table.now) }
    requires count { length (rows table.now) < 2 ^ 32 }
    requires few { length to.now < 2 ^ 32 }
    requires room { statement_count s.now ≤ length (rows table.now) }
    ensures { (names : ℕ) (after : Names) →
        StandsAt (rows table.now) 0 names ((live s.now).moments after) →
        (IsTrue result ↔ AreApartBelow (length to.now) (slice_index to.now) (before s.now after)) }
{
    for x in 0..to.len() as u32 {
        if is_live_before(table, s, 0, x) && !is_apart_before(table, to, x, s, 0) {
            return false;
        }
    }
    true
}
