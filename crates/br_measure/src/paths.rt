// Which functions a path of calls leads to.

ghost use Rattle.std.specs.Prelude.{◌≡◌, ℕ, ◌<◌, ◌↔◌, length, slice_index_or, true, false, IfOk};
ghost use Rattle.br_measure.specs.Table.{IsTable, IsFirstLoop, Leads, row};

use br_base::NoMemory;
use sqlite_items::Items;
use std::alloc::Global;

/// The first function that has a path of calls to itself.
pub fn first_recursive(alloc: Global, table: &[Items<usize>]) -> Result<Option<usize>, NoMemory>
    requires { IsTable table.now }
    ensures { IfOk result (λ r. IsFirstLoop table.now r) }
{
    for f in 0..table.len() {
        if reached(alloc, table, f)?[f] {
            return Ok(Some(f));
        }
    }
    Ok(None)
}

// For each function whether a path of calls leads to it from f.
fn reached(alloc: Global, table: &[Items<usize>], f: usize) -> Result<Vec<bool>, NoMemory>
    requires table { IsTable table.now }
    requires within { f < length table.now }
    ensures len { IfOk result (λ seen. length seen.items ≡ length table.now) }
    ensures leads { IfOk result
        (λ seen. (g : ℕ) → (slice_index_or seen.items g false ≡ true) ↔ Leads table.now f g) }
{
    let mut seen = vec![in alloc; false; table.len()]?;
    let mut left = Vec::from_slice(alloc, callees(table, f))?;
    while let Some(g) = left.pop() {
        if !seen[g] {
            seen[g] = true;
            left.extend_from_slice(callees(table, g))?;
        }
    }
    Ok(seen)
}

fn callees(table: &[Items<usize>], f: usize) -> &[usize]
    requires { f < length table.now }
    ensures { result.now ≡ row table.now f }
{
    table[f].as_slice()
}
