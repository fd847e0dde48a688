// Programs with constants in place of names.

ghost use Rattle.std.specs.Prelude.{◌≡◌, true, IfOk, IsTrue, OnOk};
ghost use Rattle.std.specs.List.{list_all};
ghost use Rattle.br_flatimp.specs.Missed.{has_no_missed};
ghost use Rattle.br_flatimp.specs.Refines.{Refines, meaning};
ghost use Rattle.br_flatimp.specs.Sizes.{Kept};
ghost use Rattle.br_flatimp.specs.WellFormed.{IsWellFormed};
ghost use Rattle.br_immediates.specs.Immediates.{function_literals_fit, function_with_constants};
ghost use Rattle.br_immediates.specs.Immediates.{program_with_constants};

use crate::bodies::statements;
use crate::laws::{
    programs_with_constants_are_well_formed, programs_with_constants_keep_sizes,
    programs_with_constants_miss_none, programs_with_constants_refine,
};
use br_base::NoMemory;
use br_flatimp::{FlatFunc, FlatProgram};
use sqlite_items::Items;
use std::alloc::Global;

/// A program with constants in place of names: where an operation's second operand is a name that a
/// literal set before in the same list, the statements between are straight and do not write it,
/// and the literal, as a signed number, fits the operation. No such name is left. The program means
/// the same, and its sizes and callees stay. Answers want of memory alone.
pub fn use_immediates(alloc: Global, p: FlatProgram) -> Result<FlatProgram, NoMemory>
    requires { IsWellFormed p.funcs }
    ensures program { IfOk result (λ q. q.funcs ≡ program_with_constants p.funcs) }
    ensures well_formed { IfOk result (λ q. IsWellFormed q.funcs) }
    ensures refines { IfOk result (λ q. Refines (meaning q.funcs) (meaning p.funcs)) }
    ensures kept { IfOk result (λ q. Kept q.funcs p.funcs) }
    ensures none_missed { IfOk result (λ q. IsTrue (list_all has_no_missed q.funcs)) }
{
    programs_with_constants_are_well_formed();
    programs_with_constants_refine();
    programs_with_constants_keep_sizes();
    programs_with_constants_miss_none();
    let funcs = functions(alloc, p.funcs.as_slice())?;
    Ok(FlatProgram { funcs })
}

fn functions(alloc: Global, fs: &[FlatFunc]) -> Result<Items<FlatFunc>, NoMemory>
    ensures program { IfOk result (λ qs. qs ≡ program_with_constants fs.now) }
    ensures words { OnOk result (list_all function_literals_fit fs.now ≡ true) }
{
    let mut made = Items::new(alloc);
    for f in fs {
        made.push(function(alloc, f)?)?;
    }
    Ok(made)
}

fn function(alloc: Global, f: &FlatFunc) -> Result<FlatFunc, NoMemory>
    ensures same { IfOk result (λ q. q ≡ function_with_constants f.now) }
    ensures words { OnOk result (function_literals_fit f.now ≡ true) }
{
    Ok(FlatFunc {
        name: f.name.copy()?,
        args: Items::from_slice(alloc, f.args.as_slice())?,
        results: Items::from_slice(alloc, f.results.as_slice())?,
        names: f.names,
        body: statements(alloc, f.body.as_slice())?,
    })
}
