// The most bytes of stack that functions may need, computed in 32 bits. A number past the type's
// end
// stays at the type's end.

ghost use Rattle.std.specs.Prelude.{◌≡◌, ℕ, ◌+◌, ◌*◌, ◌<◌, min, length, map, slice_index, IfOk};
ghost use Rattle.br_measure.specs.Bulk.{function_bulk};
ghost use Rattle.br_measure.specs.Measure.{nested_buffers, measure, largest};
ghost use Rattle.br_measure.specs.Table.{call_table, row};

use crate::bulk;
use crate::nested::nested_buffers;
use br_base::NoMemory;
use br_syntax::Func;
use sqlite_items::Items;
use std::alloc::Global;

/// The measure of each function, or 4,294,967,295 where that is less. Each round reaches one call
/// further, so that as many rounds as functions are enough.
pub fn measures(
    alloc: Global,
    funcs: &[Func],
    table: &[Items<usize>],
) -> Result<Items<u32>, NoMemory>
    requires { table.now ≡ call_table funcs.now }
    ensures { IfOk result (λ ms. ms ≡ map (λ f. min (measure funcs.now f) 4294967295) funcs.now) }
{
    let own = own_needs(alloc, funcs)?;
    let mut needs = vec![in alloc; 0; funcs.len()]?;
    for _round in 0..funcs.len() {
        needs = one_call_further(alloc, own.as_slice(), table, &needs)?;
    }
    Ok(Items::from_vec(needs))
}

// What the functions need where a callee needs so much.
fn one_call_further(
    alloc: Global,
    own: &[u32],
    table: &[Items<usize>],
    needs: &[u32],
) -> Result<Vec<u32>, NoMemory>
    requires { length own.now ≡ length table.now }
    ensures len { IfOk result (λ after. length after.items ≡ length table.now) }
    ensures needs { IfOk result
        (λ after. (f : ℕ) → f < length table.now → slice_index after.items f
        ≡ min (slice_index own.now f + largest
        (map (λ g. slice_index needs.now g) (row table.now f))) 4294967295) }
{
    let mut after = Vec::new(alloc);
    for (f, callees) in table.iter().enumerate() {
        let need = own[f].saturating_add(largest_need(needs, callees.as_slice()));
        after.push(need)?;
    }
    Ok(after)
}

#[tactic(auto, using(crate::proofs::Largest::largest_item))]
fn largest_need(needs: &[u32], callees: &[usize]) -> u32
    ensures { result ≡ largest (map (λ g. slice_index needs.now g) callees.now) }
{
    let mut most = 0;
    for g in callees {
        most = needs.get(*g).copied().unwrap_or(0).max(most);
    }
    most
}

// The bytes of each function for itself.
fn own_needs(alloc: Global, funcs: &[Func]) -> Result<Items<u32>, NoMemory>
    ensures { IfOk result (λ own. own
        ≡ map (λ f. min (4 * function_bulk f + 256 + nested_buffers f) 4294967295) funcs.now) }
{
    let mut own = Items::new(alloc);
    for f in funcs {
        own.push(own_need(f))?;
    }
    Ok(own)
}

fn own_need(f: &Func) -> u32
    ensures { result ≡ min (4 * function_bulk f.now + 256 + nested_buffers f.now) 4294967295 }
{
    bulk::function(f)
        .saturating_mul(4)
        .saturating_add(256)
        .saturating_add(nested_buffers(f))
}
