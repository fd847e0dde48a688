// The bytes of stack that functions need, computed in 32 bits. A number past
// the type's end stays at the type's end.

ghost use Rattle.std.specs.Prelude.{◌≡◌, ℕ, ◌+◌, ◌<◌, [], IsTrue, min, length};
ghost use Rattle.std.specs.Prelude.{map, slice_index, slice_index_or, IfOk};
ghost use Rattle.std.specs.List.{list_all};
ghost use Rattle.br_flatimp.specs.Parts.{callees, function_names};
ghost use Rattle.br_flatimp.specs.Sizes.{HasNoRecursion, largest, needs, own_need};
ghost use Rattle.br_flatimp.specs.WellFormed.{IsRegisterForm, are_below};

use crate::calls::call_table;
use crate::names::name_count;
use crate::nest::nest;
use br_base::NoMemory;
use br_flatimp::{FlatFunc, FlatProgram};
use sqlite_items::Items;
use std::alloc::Global;

/// How many bytes of stack each function needs, in the order of the functions: a word
/// for each of its different names and one more, its largest sum of nested buffer sizes,
/// and the most that one of its callees needs. A number past 4,294,967,295 is given as
/// that. The one error is want of memory.
///
/// Names, buffers and calls take one walk of the program each. After that each round looks at all
/// functions and calls and reaches one call further, and the first round that changes nothing ends
/// them: there is at most one round more than there are functions on the longest path of calls.
pub fn needs(alloc: Global, p: &FlatProgram) -> Result<Vec<u32>, NoMemory>
    requires no_recursion { HasNoRecursion p.now.funcs }
    requires register_form { IsRegisterForm p.now.funcs }
    ensures { IfOk result (λ v. v.items ≡ needs p.now.funcs) }
{
    let funcs = p.funcs.as_slice();
    let own = own_needs(alloc, funcs)?;
    let table = call_table(alloc, funcs)?;
    let mut needs = vec![in alloc; 0; funcs.len()]?;
    for _round in 0..funcs.len() {
        let after = one_call_further(alloc, own.as_slice(), table.as_slice(), &needs)?;
        if after.as_slice() == needs.as_slice() {
            return Ok(needs);
        }
        needs = after;
    }
    Ok(needs)
}

// What the functions need where a callee needs so much.
fn one_call_further(
    alloc: Global,
    own: &[u32],
    table: &[Items<u32>],
    needs: &[u32],
) -> Result<Vec<u32>, NoMemory>
    requires { length own.now ≡ length table.now }
    ensures len { IfOk result (λ after. length after.items ≡ length table.now) }
    ensures needs { IfOk result (λ after. (f : ℕ) →
        f < length table.now → slice_index after.items f ≡ min 4294967295 (slice_index own.now f
        + largest (map (λ g. slice_index needs.now g) (slice_index_or table.now f [])))) }
{
    let mut after = Vec::new(alloc);
    for (f, callees) in table.iter().enumerate() {
        let need = own[f].saturating_add(largest_need(needs, callees.as_slice()));
        after.push(need)?;
    }
    Ok(after)
}

#[tactic(auto, using(crate::proofs::Items::largest_item))]
fn largest_need(needs: &[u32], callees: &[u32]) -> u32
    ensures { result ≡ largest (map (λ g. slice_index needs.now g) callees.now) }
{
    let mut most = 0;
    for g in callees {
        most = needs.get(*g as usize).copied().unwrap_or(0).max(most);
    }
    most
}

// The bytes of each function for itself.
fn own_needs(alloc: Global, funcs: &[FlatFunc]) -> Result<Items<u32>, NoMemory>
    requires { IsTrue (list_all (λ f. are_below 32 (function_names f)) funcs.now) }
    ensures { IfOk result (λ own. own ≡ map (λ f. min 4294967295 (own_need f)) funcs.now) }
{
    let mut own = Items::new(alloc);
    for f in funcs {
        own.push(own_need(f))?;
    }
    Ok(own)
}

// A word for each name and one more, and the buffers.
fn own_need(f: &FlatFunc) -> u32
    requires { IsTrue (are_below 32 (function_names f.now)) }
    ensures { result ≡ min 4294967295 (own_need f.now) }
{
    (4 * (name_count(f) + 1)).saturating_add(nest(f))
}
