// Which literals a function holds: those that take most in the code, as far as there is room for
// them in registers beside its variables.

ghost use Rattle.std.specs.Prelude.{◌≤◌, length, IfOk};

use crate::uses::{Uses, uses_of, words_of};
use br_base::NoMemory;
use br_flatimp::Stmt;
use sqlite_items::Items;
use std::alloc::Global;

/// The most literals that a function holds.
const MOST_HELD: u32 = 8;

/// The most variables and literals of a function that holds literals, since what does not fit in
/// the registers would cost more than it saves.
const MOST_NAMES: u32 = 20;

/// How many words of code a held literal saves at least.
const LEAST_SAVED: u64 = 2;

/// The literals that a function with so many variables holds,
/// by its statements where it holds none.
pub(crate) fn held_literals(
    alloc: Global,
    variables: u32,
    body: &[Stmt],
) -> Result<Items<u32>, NoMemory>
    ensures { IfOk result (λ ns. length ns ≤ 8) }
{
    let mut held = Items::new(alloc);
    let room = MOST_NAMES.saturating_sub(variables).min(MOST_HELD);
    if room == 0 {
        return Ok(held);
    }
    let mut uses = uses_of(alloc, variables, body)?;
    for _ in 0..room {
        let Some(n) = most_used(&uses) else {
            return Ok(held);
        };
        uses.forget(n);
        held.push(n)?;
    }
    Ok(held)
}

// The literal that takes most, where setting it once saves enough. Of two
// that take as much the first is taken.
fn most_used(uses: &Uses) -> Option<u32> {
    let mut most = 0;
    let mut found = None;
    for (n, weight) in uses.weights.iter() {
        if *weight > most && *weight >= words_of(*n) + LEAST_SAVED {
            most = *weight;
            found = Some(*n);
        }
    }
    found
}
