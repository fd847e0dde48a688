// Programs without dead statements.

ghost use Rattle.std.specs.Prelude.{◌≡◌, ◌||◌, IfOk, IsTrue, OnOk};
ghost use Rattle.std.specs.List.{list_all};
ghost use Rattle.br_flatimp.specs.Liveness.{has_no_dead};
ghost use Rattle.br_flatimp.specs.Refines.{Refines, meaning};
ghost use Rattle.br_flatimp.specs.Sizes.{Kept};
ghost use Rattle.br_flatimp.specs.WellFormed.{IsWellFormed};
ghost use Rattle.br_deadcode.specs.LeftOut.{HasSameOthers, InPairs, MissesNoMore};
ghost use Rattle.br_deadcode.specs.Sweeps.{program_leaves, swept_program};

use crate::sweep::sweep_function;
use crate::unneeded::remove_unneeded;
use br_base::NoMemory;
use br_flatimp::{FlatFunc, FlatProgram};
use br_live::names_are_below;
use sqlite_items::Items;
use std::alloc::Global;

/// A program without dead statements: a Lit, Copy, Op, Load or Table goes where no name that it
/// writes is live after it, again and again, so that none such is left. All other statements stay.
/// The program means the same at the same fuel, its sizes and callees do not grow, and where no
/// operand of a function is missed, none of the answer's is. Answers want of memory alone.
pub fn remove_dead(alloc: Global, p: FlatProgram) -> Result<FlatProgram, NoMemory>
    requires { IsWellFormed p.funcs }
    ensures well_formed { IfOk result (λ q. IsWellFormed q.funcs) }
    ensures refines { IfOk result (λ q. Refines (meaning q.funcs) (meaning p.funcs)) }
    ensures kept { IfOk result (λ q. Kept q.funcs p.funcs) }
    ensures none_dead { IfOk result (λ q. IsTrue (list_all has_no_dead q.funcs)) }
    ensures others_stay { IfOk result (λ q. InPairs HasSameOthers q.funcs p.funcs) }
    ensures missed { IfOk result (λ q. InPairs MissesNoMore q.funcs p.funcs) }
{
    let needed = remove_unneeded(alloc, p)?;
    let left = sweep_program(alloc, needed)?;
    Ok(left)
}

// Sweeps, until one leaves nothing out.
fn sweep_program(alloc: Global, p: FlatProgram) -> Result<FlatProgram, NoMemory>
    requires { IsWellFormed p.funcs }
    ensures well_formed { IfOk result (λ q. IsWellFormed q.funcs) }
    ensures refines { IfOk result (λ q. Refines (meaning q.funcs) (meaning p.funcs)) }
    ensures kept { IfOk result (λ q. Kept q.funcs p.funcs) }
    ensures none_dead { IfOk result (λ q. IsTrue (list_all has_no_dead q.funcs)) }
    ensures others_stay { IfOk result (λ q. InPairs HasSameOthers q.funcs p.funcs) }
    ensures missed { IfOk result (λ q. InPairs MissesNoMore q.funcs p.funcs) }
{
    let mut funcs = p.funcs;
    'rounds: loop {
        let mut removed = false;
        let fewer = sweep_functions(alloc, funcs.as_slice(), &mut removed)?;
        if !removed {
            return Ok(FlatProgram { funcs });
        }
        funcs = fewer;
    }
}

// What a sweep leaves of functions. `removed` becomes true where it leaves a statement out.
fn sweep_functions(
    alloc: Global,
    fs: &[FlatFunc],
    removed: &mut bool,
) -> Result<Items<FlatFunc>, NoMemory>
    requires { IsWellFormed fs.now }
    ensures left { IfOk result (λ qs. qs ≡ swept_program fs.now) }
    ensures removed { OnOk result (removed.new ≡ (removed.old || program_leaves fs.now)) }
{
    names_are_below();
    let mut made = Items::new(alloc);
    for f in fs {
        made.push(sweep_function(alloc, f, removed)?)?;
    }
    Ok(made)
}
