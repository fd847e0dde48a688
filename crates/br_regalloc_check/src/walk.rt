// Whether statements may be renamed, in the order of their rows in the table.

ghost use Rattle.std.specs.Prelude.{◌≡◌, ℕ, ◌+◌, ◌<◌, ◌≤◌, ◌^◌, ◌↔◌, IsTrue};
ghost use Rattle.std.specs.Prelude.{length, map, slice_index, sum};
ghost use Rattle.std.specs.List.{AllByRecursion, flat_map};
ghost use Rattle.br_flatimp.specs.Liveness.{before_all, live, moments};
ghost use Rattle.br_flatimp.specs.Parts.{statement_names};
ghost use Rattle.br_flatimp.specs.Sizes.{statement_count};
ghost use Rattle.br_flatimp.specs.Values.{Names};
ghost use Rattle.br_flatimp.specs.WellFormed.{are_below};
ghost use Rattle.br_live.specs.Tables.{row_at, rows};
ghost use Rattle.br_regalloc_check.specs.Walks.{HaveBound, IsApartBelow, MayRenameBelow, StandsAt};

use crate::apart::{are_apart, differ, is_apart};
use crate::before::is_apart_before;
use br_flatimp::Stmt;
use br_live::LiveTable;

/// Whether statements in turn may be renamed. The first has a number in the table, which is moved
/// to that after the last.
#[cycle(walk)]
pub(crate) fn may_rename_all(table: &LiveTable, to: &[u32], body: &[Stmt], at: &mut u32) -> bool
    requires bound { HaveBound (length to.now) (rows table.now) }
    requires count { length (rows table.now) < 2 ^ 32 }
    requires few { length to.now < 2 ^ 32 }
    requires room { at.old + sum (map statement_count body.now) ≤ length (rows table.now) }
    requires names { IsTrue (are_below (length to.now) (flat_map statement_names body.now)) }
    ensures moved { IsTrue result → at.new ≡ at.old + sum (map statement_count body.now) }
    ensures may { (names : ℕ) (after : Names) →
        StandsAt (rows table.now) at.old names (moments (map live body.now) after) →
        (IsTrue result ↔ AllByRecursion (MayRenameBelow (length to.now) (slice_index to.now))
        (moments (map live body.now) after)) }
{
    for s in body {
        if !may_rename(table, to, s, at) {
            return false;
        }
    }
    true
}

#[cycle(walk)]
fn may_rename(table: &LiveTable, to: &[u32], s: &Stmt, at: &mut u32) -> bool
    requires bound { HaveBound (length to.now) (rows table.now) }
    requires count { length (rows table.now) < 2 ^ 32 }
    requires few { length to.now < 2 ^ 32 }
    requires room { at.old + statement_count s.now ≤ length (rows table.now) }
    requires names { IsTrue (are_below (length to.now) (statement_names s.now)) }
    ensures moved { IsTrue result → at.new ≡ at.old + statement_count s.now }
    ensures may { (names : ℕ) (after : Names) →
        StandsAt (rows table.now) at.old names ((live s.now).moments after) →
        (IsTrue result ↔ AllByRecursion (MayRenameBelow (length to.now) (slice_index to.now))
        ((live s.now).moments after)) }
{
    let own = *at;
    *at += 1;
    match s {
        Stmt::Stackalloc(x, _, body) => {
            let body = body.as_slice();
            is_apart_before_part(table, to, *x, body, own) && may_rename_all(table, to, body, at)
        }
        Stmt::If(_, first, second) | Stmt::Loop(first, _, second) => {
            may_rename_all(table, to, first.as_slice(), at)
                && may_rename_all(table, to, second.as_slice(), at)
        }
        Stmt::Call(xs, _, _) => {
            let xs = xs.as_slice();
            differ(to, xs) && are_apart(to, xs, table.set(own))
        }
        Stmt::Lit(x, _)
        | Stmt::Copy(x, _)
        | Stmt::Op(x, _, _, _)
        | Stmt::Load(x, _, _, _)
        | Stmt::Table(x, _, _, _)
        | Stmt::Read(x, _) => is_apart(to, *x, table.set(own)),
        Stmt::Store(_, _, _, _) | Stmt::Write(_, _) => true,
    }
}

// Whether a buffer's name may be written before the statements that run while it stands. The first
// of them has the number after that of the buffer.
fn is_apart_before_part(table: &LiveTable, to: &[u32], x: u32, part: &[Stmt], of: u32) -> bool
    requires bound { HaveBound (length to.now) (rows table.now) }
    requires name { x < length to.now }
    requires count { length (rows table.now) < 2 ^ 32 }
    requires few { length to.now < 2 ^ 32 }
    requires room { of + 1 + sum (map statement_count part.now) ≤ length (rows table.now) }
    ensures { (names : ℕ) (after : Names) → (row_at table.now of).set ≡ after →
        StandsAt (rows table.now) (of + 1) names (moments (map live part.now) after) →
        (IsTrue result ↔
        IsApartBelow (length to.now) (slice_index to.now) x (before_all part.now after)) }
{
    match part {
        [s, ..] => is_apart_before(table, to, x, s, of + 1),
        [] => is_apart(to, x, table.set(of)),
    }
}
