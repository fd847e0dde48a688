// Programs in their simplest form.

ghost use Rattle.std.specs.Prelude.{◌≡◌, IfOk};
ghost use Rattle.br_simplify.specs.Simple.{simple_function, simple_program};

use crate::commands::{commands, names};
use br_base::NoMemory;
use br_syntax::Func;
use sqlite_items::Items;
use std::alloc::Global;

/// The functions of a program in their simplest form. Answers want of memory alone.
pub fn simple_program(alloc: Global, funcs: &[Func]) -> Result<Items<Func>, NoMemory>
    ensures { IfOk result (λ fs. fs ≡ simple_program funcs.now) }
{
    let mut simple = Items::new(alloc);
    for f in funcs {
        simple.push(function(alloc, f)?)?;
    }
    Ok(simple)
}

fn function(alloc: Global, f: &Func) -> Result<Func, NoMemory>
    ensures { IfOk result (λ s. s ≡ simple_function f.now) }
{
    let name = f.name.copy()?;
    let args = names(alloc, f.args.as_slice())?;
    let results = names(alloc, f.results.as_slice())?;
    let body = commands(alloc, f.body.as_slice())?;
    Ok(Func {
        at: f.at,
        name,
        args,
        results,
        body,
    })
}
