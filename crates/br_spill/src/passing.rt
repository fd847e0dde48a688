// Words that are passed in registers.

ghost use Rattle.std.specs.Prelude.{◌≡◌, ◌<◌, ◌≤◌, ◌++◌, length, map, IfOk, OnOk};
ghost use Rattle.br_spill.specs.Spill.{in_order, layout_in, passes, takes};

use crate::moves::{pass, put};
use crate::place::{Places, place_of};
use br_base::NoMemory;
use br_flatimp::Stmt;
use sqlite_items::Items;
use std::alloc::Global;

// The first register that passes words.
const FIRST: u32 = 10;

// How many registers pass words.
const MOST_PASSED: usize = 8;

/// As many registers that pass words, in order. Past the eighth word no register
/// is left: the answer is then want of memory too. No function and no call of a
/// well formed program passes that many.
pub(crate) fn registers(alloc: Global, count: usize) -> Result<Items<u32>, NoMemory>
    ensures registers { IfOk result (λ xs. xs ≡ in_order 10 count) }
    ensures few { OnOk result (count ≤ 8) }
{
    if count > MOST_PASSED {
        return Err(NoMemory);
    }
    let mut xs = Items::new(alloc);
    for i in 0..count {
        xs.push(FIRST + i as u32)?;
    }
    Ok(xs)
}

/// Passes the words of names that have such places.
pub(crate) fn passes(places: Places, ys: &[u32], out: &mut Items<Stmt>) -> Result<(), NoMemory>
    requires { length ys.now ≤ 8 }
    ensures { OnOk result (out.new ≡ out.old ++ passes (map (layout_in places).place ys.now) 10) }
{
    let mut to = FIRST;
    for y in ys {
        pass(place_of(places, *y), to, out)?;
        to += 1;
    }
    Ok(())
}

/// Takes passed words to names.
pub(crate) fn takes(places: Places, xs: &[u32], out: &mut Items<Stmt>) -> Result<(), NoMemory>
    requires { length xs.now ≤ 8 }
    ensures { OnOk result (out.new ≡ out.old ++ takes (map (layout_in places).place xs.now) 10) }
{
    let mut from = FIRST;
    for x in xs {
        put(place_of(places, *x), from, out)?;
        from += 1;
    }
    Ok(())
}
