// Numbers for the names of a function.

ghost use Rattle.std.specs.Prelude.{IsTrue};
ghost use Rattle.br_flatimp.specs.Parts.{function_names};
ghost use Rattle.br_flatimp.specs.WellFormed.{are_below};

use crate::colors::colors_of;
use crate::points::{Points, REGISTERS};
use crate::spans::{Span, spans_of};
use crate::weights::{Key, in_order};
use br_base::NoMemory;
use br_flatimp::{FlatFunc, Proposal};
use sqlite_items::Items;
use std::alloc::Global;

// No number.
const NONE: u32 = u32::MAX;

// How often 32 numbers are given to names by the points where they are live.
const BLOCKS: u32 = 4;

/// New names for a function, from 0 on: names that are live at no point together may share one. The
/// heaviest names get the lowest, and a name that of another that it is copied from or to
/// where it can. Nothing is promised of them. The 128 lowest are given by the points where
/// names are live, a few steps for each name at each point and each 32 numbers; the others,
/// and all of a function with more than 4,194,304 places of names at points, by the first and
/// the last place of a name in the text.
pub fn propose(alloc: Global, f: &FlatFunc) -> Result<Proposal, NoMemory>
    requires { IsTrue (are_below f.now.names (function_names f.now)) }
{
    let mut to = vec![in alloc; NONE; f.names as usize]?;
    let mut points = Points::new(alloc, f, &[], 0, u32::MAX)?;
    let mut from = 0u32;
    if !points.is_full {
        let mut rest = in_order(alloc, &points, 0, Key::Weight)?;
        for _block in 0..BLOCKS {
            rest = number_each(alloc, &mut points, &mut to, rest.as_slice(), from)?;
            points.give_back();
            from = from.saturating_add(REGISTERS);
        }
    }
    number_rest(alloc, f, &mut to, from)?;
    Ok(Proposal {
        to: Items::from_vec(to),
    })
}

// Gives names the 32 numbers from one on, and answers those for which none was left.
fn number_each(
    alloc: Global,
    points: &mut Points,
    to: &mut Vec<u32>,
    names: &[u32],
    from: u32,
) -> Result<Vec<u32>, NoMemory> {
    let mut rest = Vec::new(alloc);
    for x in names {
        let number = points.choose_number(*x, to.as_slice(), from);
        let at = *x as usize;
        if number < NONE && at < to.len() {
            to[at] = number;
            points.take(*x, number.saturating_sub(from));
        } else {
            rest.push(*x)?;
        }
    }
    Ok(rest)
}

// Gives numbers from one on to the names that have none and
// are in use, and 0 to those that are not.
fn number_rest(alloc: Global, f: &FlatFunc, to: &mut Vec<u32>, from: u32) -> Result<(), NoMemory> {
    let spans = spans_of(alloc, f)?;
    let order = unnumbered(alloc, spans.as_slice(), to.as_slice())?;
    let colors = colors_of(alloc, spans.as_slice(), order.as_slice())?;
    for x in &order {
        let at = *x as usize;
        if at < colors.len() && at < to.len() {
            to[at] = from.saturating_add(colors[at]);
        }
    }
    for number in to.as_mut_slice().iter_mut() {
        if *number == NONE {
            *number = 0;
        }
    }
    Ok(())
}

// The names in use that have no number, by the places from which they are in use.
fn unnumbered(alloc: Global, spans: &[Span], to: &[u32]) -> Result<Vec<u32>, NoMemory> {
    let mut keyed = Vec::new(alloc);
    let mut x = 0u32;
    for s in spans {
        let at = x as usize;
        if s.first <= s.last && at < to.len() && to[at] == NONE {
            keyed.push((s.first, x))?;
        }
        x = x.saturating_add(1);
    }
    keyed.sort()?;
    let mut order = Vec::new(alloc);
    for (_, x) in &keyed {
        order.push(*x)?;
    }
    Ok(order)
}
