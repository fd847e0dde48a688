// Registers for the names of a program.

ghost use Rattle.std.specs.Prelude.{◌≡◌, IfOk, length};

use crate::callees::Calls;
use crate::choosing::MOST;
use crate::points::{Points, REGISTERS};
use crate::weights::{Key, in_order};
use br_base::NoMemory;
use br_flatimp::{FlatFunc, FlatProgram, Proposal};
use sqlite_items::Items;
use std::alloc::Global;

/// Registers for the names of a function, and those that a call of it may change.
#[derive(Drop)]
struct Given {
    to: Vec<u32>,
    changed: u32,
}

/// Registers for the names of each function, for programs in which the names below 32 are registers
/// already. A name from 32 on gets a register from 3 to 31 that no name has beside it at any point;
/// one for which none is left, and each name of a function with more than 29 names live at a point,
/// keeps its number. Nothing is promised of them.
///
/// Callees come first, so that a name that outlasts a call can keep out of what the callee changes.
/// The names of a function get their registers in the order of their weight, and where these do not
/// suffice in the order of the text: where it can a name gets the register of a name that it is
/// copied from or to, and else the one that costs least. It takes a few steps for each name that is
/// live at each point, of which there are at most 29, and for each 32 names at each point one more;
/// and eight bytes of memory for each name that is live at a point.
pub fn propose_registers(alloc: Global, p: &FlatProgram) -> Result<Vec<Proposal>, NoMemory>
    ensures { IfOk result (λ ps. length ps.items ≡ length p.now.funcs) }
{
    let fs = p.funcs.as_slice();
    let mut proposals = no_proposals(alloc, fs)?;
    let mut changes = vec![in alloc; u32::MAX; fs.len()]?;
    let mut calls = Calls::new(alloc, fs)?;
    let order = calls.in_order(alloc)?;
    for n in &order {
        let at = *n as usize;
        if at < fs.len() && at < changes.len() && at < proposals.len() {
            let given = registers_for(alloc, &fs[at], changes.as_slice(), calls.is_called(*n))?;
            changes[at] = given.changed;
            proposals[at] = Proposal {
                to: Items::from_vec(given.to),
            };
        }
    }
    Ok(proposals)
}

// As many proposals without numbers as there are functions.
fn no_proposals(alloc: Global, fs: &[FlatFunc]) -> Result<Vec<Proposal>, NoMemory>
    ensures { IfOk result (λ ps. length ps.items ≡ length fs.now) }
{
    let mut proposals = Vec::new(alloc);
    for _f in fs {
        proposals.push(Proposal {
            to: Items::new(alloc),
        })?;
    }
    Ok(proposals)
}

fn registers_for(
    alloc: Global,
    f: &FlatFunc,
    changes: &[u32],
    is_called: bool,
) -> Result<Given, NoMemory> {
    let mut to = same_names(alloc, f.names)?;
    let mut points = Points::new(alloc, f, changes, REGISTERS, MOST)?;
    if points.is_full {
        return Ok(Given {
            to,
            changed: u32::MAX,
        });
    }
    points.want_each();
    let changed = points.changed;
    let heaviest = in_order(alloc, &points, REGISTERS, Key::Weight)?;
    if give_each(&mut points, &mut to, heaviest.as_slice(), is_called) {
        return Ok(Given {
            to,
            changed: points.changed,
        });
    }
    points.give_back();
    points.changed = changed;
    let mut to = same_names(alloc, f.names)?;
    let earliest = in_order(alloc, &points, REGISTERS, Key::Place)?;
    give_each(&mut points, &mut to, earliest.as_slice(), is_called);
    Ok(Given {
        to,
        changed: points.changed,
    })
}

// Gives names registers one after the other, and answers whether there was one for each.
fn give_each(points: &mut Points, to: &mut Vec<u32>, order: &[u32], is_called: bool) -> bool {
    let mut is_enough = true;
    for x in order {
        let r = points.choose(*x, to.as_slice(), is_called);
        let at = *x as usize;
        if r < REGISTERS && at < to.len() {
            to[at] = r;
            points.take(*x, r);
        } else {
            is_enough = false;
        }
    }
    is_enough
}

// So many names, each as it is.
fn same_names(alloc: Global, names: u32) -> Result<Vec<u32>, NoMemory> {
    let mut to = Vec::new(alloc);
    for x in 0..names {
        to.push(x)?;
    }
    Ok(to)
}
