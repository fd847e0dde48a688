// Which names are live before statements, from the sets after them.

ghost use Rattle.std.specs.Prelude.{◌≡◌, ◌&&◌, ◌||◌, not, ℕ, ◌+◌, ◌<◌, ◌≤◌, ◌^◌, IsTrue, ◌↔◌};
ghost use Rattle.std.specs.Prelude.{length, map, slice_index, sum};
ghost use Rattle.br_flatimp.specs.Liveness.{before, is_in, live, moments};
ghost use Rattle.br_flatimp.specs.Parts.{operand_names, test_names};
ghost use Rattle.br_flatimp.specs.Sizes.{statement_count};
ghost use Rattle.br_flatimp.specs.Values.{Names};
ghost use Rattle.br_live.specs.Tables.{rows};
ghost use Rattle.br_regalloc_check.specs.Walks.{HaveBound, HaveName, IsApartBelow, StandsAt};
ghost use Rattle.br_regalloc_check.specs.Walks.{start_of};

use crate::count::count_all;
use br_flatimp::{Cond, Operand, Stmt, loops_take_one_turn};
use br_live::LiveTable;

/// Whether a name's new name is that of no other name that is live before a statement, which has a
/// number in the table.
pub(crate) fn is_apart_before(table: &LiveTable, to: &[u32], x: u32, s: &Stmt, at: u32) -> bool
    requires bound { HaveBound (length to.now) (rows table.now) }
    requires name { x < length to.now }
    requires names { length to.now < 2 ^ 32 }
    requires count { length (rows table.now) < 2 ^ 32 }
    requires room { at + statement_count s.now ≤ length (rows table.now) }
    ensures { (names : ℕ) (after : Names) →
        StandsAt (rows table.now) at names ((live s.now).moments after) →
        (IsTrue result ↔ IsApartBelow (length to.now) (slice_index to.now) x (before s.now after)) }
{
    for z in 0..to.len() {
        if to[z] == to[x as usize] && z != x as usize && is_live_before(table, s, at, z as u32) {
            return false;
        }
    }
    true
}

/// Whether a name is live before a statement, which has a number in the table.
#[cycle(before)]
pub(crate) fn is_live_before(table: &LiveTable, s: &Stmt, at: u32, x: u32) -> bool
    requires name { HaveName x (rows table.now) }
    requires count { length (rows table.now) < 2 ^ 32 }
    requires room { at + statement_count s.now ≤ length (rows table.now) }
    ensures { (names : ℕ) (after : Names) →
        StandsAt (rows table.now) at names ((live s.now).moments after) →
        result ≡ before s.now after x }
{
    let after = is_live_after(table, s, at, x);
    match s {
        Stmt::Stackalloc(y, _, body) => {
            let inside = is_live_at_start(table, body.as_slice(), after, at + 1, x);
            passes(*y == x, false, inside)
        }
        Stmt::If(test, first, second) => {
            let first = first.as_slice();
            let in_first = is_live_at_start(table, first, after, at + 1, x);
            is_either(is_tested(*test, x), in_first)
                || is_live_at_start(
                    table,
                    second.as_slice(),
                    after,
                    at + 1 + count_all(first),
                    x,
                )
        }
        Stmt::Loop(first, test, last) => {
            loops_take_one_turn();
            let first = first.as_slice();
            if first.is_empty() {
                return is_either(is_tested(*test, x), after)
                    || is_live_at_start(table, last.as_slice(), false, at + 1, x);
            }
            is_live_at_start(table, first, false, at + 1, x)
        }
        Stmt::Lit(y, _) => passes(*y == x, false, after),
        Stmt::Copy(y, z) | Stmt::Load(y, _, z, _) | Stmt::Table(y, _, _, z) | Stmt::Read(y, z) => {
            passes(*y == x, *z == x, after)
        }
        Stmt::Op(y, _, z, operand) => {
            passes(*y == x, is_either(*z == x, is_operand(*operand, x)), after)
        }
        Stmt::Store(_, y, z, _) | Stmt::Write(y, z) => {
            passes(false, is_either(*y == x, *z == x), after)
        }
        Stmt::Call(ys, _, zs) => {
            passes(
                is_among(x, ys.as_slice()),
                is_among(x, zs.as_slice()),
                after,
            )
        }
    }
}

// Whether a name is live after a statement.
fn is_live_after(table: &LiveTable, s: &Stmt, at: u32, x: u32) -> bool
    requires name { HaveName x (rows table.now) }
    requires room { at + statement_count s.now ≤ length (rows table.now) }
    ensures { (names : ℕ) (after : Names) →
        StandsAt (rows table.now) at names ((live s.now).moments after) → result ≡ after x }
{
    table.after(at, x)
}

// Whether a name is live before statements, of which the first has a number in the table; where
// there is none, what is given.
#[cycle(before)]
fn is_live_at_start(table: &LiveTable, part: &[Stmt], none: bool, at: u32, x: u32) -> bool
    requires name { HaveName x (rows table.now) }
    requires count { length (rows table.now) < 2 ^ 32 }
    requires room { at + sum (map statement_count part.now) ≤ length (rows table.now) }
    ensures { (names : ℕ) (end : Names) →
        StandsAt (rows table.now) at names (moments (map live part.now) end) →
        result ≡ start_of part.now none end x }
{
    match part {
        [s, ..] => is_live_before(table, s, at, x),
        [] => none,
    }
}

// Whether a name is live before a statement that may write it or read it.
fn passes(is_written: bool, is_read: bool, after: bool) -> bool
    ensures { result ≡ ((after && not is_written) || is_read) }
{
    is_read || (after && !is_written)
}

fn is_either(a: bool, b: bool) -> bool
    ensures { result ≡ (a || b) }
{
    a || b
}

fn is_tested(test: Cond, x: u32) -> bool
    ensures { result ≡ is_in (test_names test) x }
{
    match test {
        Cond::NonZero(y) => y == x,
        Cond::Compare(_, y, z) => is_either(y == x, z == x),
    }
}

fn is_operand(z: Operand, x: u32) -> bool
    ensures { result ≡ is_in (operand_names z) x }
{
    match z {
        Operand::Name(y) => y == x,
        Operand::Const(_) => false,
    }
}

fn is_among(x: u32, xs: &[u32]) -> bool
    ensures { result ≡ is_in xs.now x }
{
    xs.iter().any(|y| *y == x)
}
