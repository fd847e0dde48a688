// A number for each name, so that names that are in use at one place have different numbers.

use crate::spans::Span;
use br_base::NoMemory;
use std::alloc::Global;

/// The numbers of names, in the order in which they come into use.
pub(crate) fn colors_of(
    alloc: Global,
    spans: &[Span],
    order: &[u32],
) -> Result<Vec<u32>, NoMemory> {
    let mut to = vec![in alloc; 0u32; spans.len()]?;
    let mut colors = Vec::new(alloc);
    for x in order {
        let at = *x as usize;
        if at < spans.len() {
            let s = spans[at];
            let color = free_color(spans, to.as_slice(), colors.as_slice(), s);
            take(&mut colors, color, s)?;
            if at < to.len() {
                to[at] = color;
            }
        }
    }
    Ok(to)
}

// The number of the name that is copied into this one, where
// it is free, or else the first free one.
fn free_color(spans: &[Span], to: &[u32], colors: &[u32], s: Span) -> u32 {
    let like = s.like as usize;
    if like < spans.len() && like < to.len() {
        let color = to[like] as usize;
        if color < colors.len() && spans[like].first < s.first && colors[color] < s.first {
            return to[like];
        }
    }
    let mut color = 0;
    for until in colors {
        if *until < s.first {
            return color;
        }
        if color < u32::MAX {
            color += 1;
        }
    }
    color
}

// To which place each number is taken.
fn take(colors: &mut Vec<u32>, color: u32, s: Span) -> Result<(), NoMemory> {
    let at = color as usize;
    if at < colors.len() {
        colors[at] = s.last;
    } else {
        colors.push(s.last)?;
    }
    Ok(())
}
