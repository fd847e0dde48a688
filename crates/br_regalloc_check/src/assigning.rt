// Programs whose functions take new names.

ghost use Rattle.std.specs.Prelude.{◌≡◌, ◌<◌, ◌≤◌, ◌^◌, IfOk, IsTrue, length, reverse, slice_index};
ghost use Rattle.std.specs.List.{AllByRecursion};
ghost use Rattle.br_flatimp.specs.Refines.{Refines, meaning};
ghost use Rattle.br_flatimp.specs.Sizes.{Kept, function_count};
ghost use Rattle.br_flatimp.specs.WellFormed.{IsWellFormed};
ghost use Rattle.br_regalloc_check.specs.Accepted.{IsAccepted};
ghost use Rattle.br_regalloc_check.specs.Assigned.{AreAssigned, IsAssigned, KeepLean};
ghost use Rattle.br_regalloc_check.specs.Assigned.{function_renamed};
ghost use Rattle.br_regalloc_check.specs.Walks.{IsFit};

use crate::checker::accepts;
use crate::names_for::names_for;
use crate::renamed::{new_names, renamed_all};
use br_base::NoMemory;
use br_flatimp::{FlatFunc, FlatProgram, Proposal, renamed_programs_refine};
use br_live::live_after;
use sqlite_items::Items;
use std::alloc::Global;

/// A program whose functions take the new names that are proposed, each where it may; a function
/// that may not stays as it is. There is a proposal for each function, in their order. The count of
/// names of a function that takes new names is one more than the largest that stands in it, or 0.
/// The program means the same, and its sizes and callees stay. A function misses no operand where
/// the one that it comes from misses none, and has no dead statement where that one has none.
/// Answers want of memory alone.
pub fn assign(
    alloc: Global,
    p: FlatProgram,
    proposals: &[Proposal],
) -> Result<FlatProgram, NoMemory>
    requires formed { IsWellFormed p.funcs }
    requires count { AllByRecursion (λ f. function_count f < 2 ^ 32) p.funcs }
    requires proposals { length proposals.now ≡ length p.funcs }
    ensures assigned { IfOk result (λ q. AreAssigned q.funcs p.funcs proposals.now) }
    ensures well_formed { IfOk result (λ q. IsWellFormed q.funcs) }
    ensures refines { IfOk result (λ q. Refines (meaning q.funcs) (meaning p.funcs)) }
    ensures kept { IfOk result (λ q. Kept q.funcs p.funcs) }
    ensures lean { IfOk result (λ q. KeepLean q.funcs p.funcs) }
{
    renamed_programs_refine();
    let mut funcs = functions(alloc, p.funcs, proposals)?;
    funcs.as_mut_slice().reverse();
    Ok(FlatProgram {
        funcs: Items::from_vec(funcs),
    })
}

// The functions, the last first.
fn functions(
    alloc: Global,
    mut fs: Items<FlatFunc>,
    proposals: &[Proposal],
) -> Result<Vec<FlatFunc>, NoMemory>
    requires fit { AllByRecursion IsFit fs }
    requires proposals { length proposals.now ≡ length fs }
    ensures { IfOk result (λ qs. AreAssigned (reverse qs.items) fs proposals.now) }
{
    let mut made = Vec::new(alloc);
    while let Some(f) = fs.pop() {
        made.push(function(alloc, f, &proposals[fs.len()])?)?;
    }
    Ok(made)
}

// A function with new names where it may take them.
fn function(alloc: Global, f: FlatFunc, p: &Proposal) -> Result<FlatFunc, NoMemory>
    requires { IsFit f }
    ensures { IfOk result (λ q. IsAssigned q f p.now) }
{
    let live = live_after(alloc, &f)?;
    if !accepts(&f, &live, p) {
        return Ok(f);
    }
    function_renamed(alloc, f, p.to.as_slice())
}

fn function_renamed(alloc: Global, f: FlatFunc, to: &[u32]) -> Result<FlatFunc, NoMemory>
    requires accepted { IsAccepted f to.now }
    requires fit { IsFit f }
    ensures { IfOk result (λ q. q ≡ function_renamed (slice_index to.now) f) }
{
    let args = new_names(alloc, to, f.args.as_slice())?;
    let results = new_names(alloc, to, f.results.as_slice())?;
    let body = renamed_all(alloc, to, f.body.as_slice())?;
    let names = names_for(args.as_slice(), results.as_slice(), body.as_slice());
    Ok(FlatFunc {
        name: f.name,
        args,
        results,
        names,
        body,
    })
}
