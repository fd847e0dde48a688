// Names in the order in which they get their registers or numbers.

use crate::points::Points;
use br_base::NoMemory;
use std::alloc::Global;

/// What the names are ordered by.
#[derive(Clone, Copy)]
pub(crate) enum Key {
    /// The heaviest first.
    Weight,
    /// Those first that come first into use in the text.
    Place,
}

/// The names from one on that are in use.
pub(crate) fn in_order(
    alloc: Global,
    points: &Points,
    from: u32,
    key: Key,
) -> Result<Vec<u32>, NoMemory> {
    let mut keyed = Vec::new(alloc);
    let mut x = 0;
    for known in &points.names {
        if x >= from && known.weight > 0 {
            let most = match key {
                Key::Weight => known.weight,
                Key::Place => known.place,
            };
            keyed.push((u32::MAX - most, x))?;
        }
        if x < u32::MAX {
            x += 1;
        }
    }
    keyed.sort()?;
    let mut order = Vec::new(alloc);
    for (_, x) in &keyed {
        order.push(*x)?;
    }
    Ok(order)
}
