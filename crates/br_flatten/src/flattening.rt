// The flat functions of a program.

ghost use Rattle.std.specs.Prelude.{◌≡◌, ◌≤◌, ◌+◌, ℕ, List, map, length, IfOk};
ghost use Rattle.br_flatimp.specs.Refines.{Refines, meaning};
ghost use Rattle.br_flatimp.specs.WellFormed.{IsWellFormed};
ghost use Rattle.br_flatten.specs.Flatten.{flat_function};
ghost use Rattle.br_flatten.specs.Meaning.{source_meaning};
ghost use Rattle.br_flatten.specs.Scope.{scoped};
ghost use Rattle.br_flatten.specs.Places.{first_places};
ghost use Rattle.br_flatten.specs.Programs.{AreFlat, IsFlat, scope_of};
ghost use Rattle.br_flatten.specs.Sized.{AreSized};
ghost use Rattle.br_measure.specs.Bulk.{bulk, commands_bulk};
ghost use Rattle.br_simplify.specs.Simple.{simple_program};
ghost use Rattle.br_syntax.specs.NameFaults.{HasNoNameFault};
ghost use Rattle.br_syntax.specs.Shape.{IsShaped};

use crate::held::held_literals;
use crate::highest::{above, above_statements};
use crate::places;
use crate::scope::{Functions, Scope};
use crate::statements::{commands, settings};
use crate::units::is_no_larger;
use br_base::NoMemory;
use br_flatimp::{FlatFunc, FlatProgram};
use br_measure::Checked;
use br_numbering::Numbering;
use br_simplify::{
    simple_program, simple_programs_are_no_larger, simple_programs_keep_rules,
    simple_programs_mean_the_same,
};
use br_syntax::Func;
use sqlite_items::Items;
use std::alloc::Global;

/// The flat program of a program of the source language: that of its simplest form. The
/// variables of a function are numbered in the order of their first place there. After them
/// come at most eight literals that the function sets once, at its start, where that makes it
/// no larger, and then the temporaries. The units and the names of a function are within its
/// bulk, its buffers within its nested buffers, and it calls no function that its source does
/// not call. Answers want of memory alone.
pub fn flatten(alloc: Global, p: &Checked) -> Result<FlatProgram, NoMemory>
    ensures program { IfOk result
        (λ q. AreFlat (simple_program p.now) (simple_program p.now) q.funcs) }
    ensures refines { IfOk result (λ q. Refines (meaning q.funcs) (source_meaning p.now)) }
    ensures well_formed { IfOk result (λ q. IsWellFormed q.funcs) }
    ensures sizes { IfOk result (λ q. AreSized p.now p.now q.funcs) }
{
    simple_programs_mean_the_same();
    simple_programs_keep_rules();
    simple_programs_are_no_larger();
    let source = p.program().funcs.as_slice();
    let simple = simple_program(alloc, source)?;
    let funcs = flat_functions(alloc, simple.as_slice())?;
    Ok(FlatProgram { funcs })
}

// The flat functions of a program.
fn flat_functions(alloc: Global, funcs: &[Func]) -> Result<Items<FlatFunc>, NoMemory>
    requires names { HasNoNameFault funcs.now }
    requires limits { IsShaped funcs.now }
    requires small { bulk funcs.now ≤ 32768 }
    ensures { IfOk result (λ q. AreFlat funcs.now funcs.now q) }
{
    let functions = numbered(alloc, funcs)?;
    let mut flat = Items::new(alloc);
    for f in funcs {
        flat.push(function(alloc, &functions, f)?)?;
    }
    Ok(flat)
}

// The functions of a program by name.
fn numbered<'a>(alloc: Global, funcs: &'a [Func]) -> Result<Functions<'a>, NoMemory>
    requires names { HasNoNameFault funcs.now }
    requires small { bulk funcs.now ≤ 32768 }
    ensures { IfOk result (λ r. r.funcs.now ≡ funcs.now) }
{
    let mut names = Numbering::new(alloc);
    for f in funcs {
        names.add(f.name.bytes())?;
    }
    Ok(Functions { funcs, names })
}

// A function. It holds the literals that take most in its code, where that makes it no larger.
fn function(alloc: Global, functions: &Functions, f: &Func) -> Result<FlatFunc, NoMemory>
    requires variables { length (first_places f.now) ≤ 32768 }
    requires room { length (first_places f.now) + commands_bulk f.now.body ≤ 65536 }
    requires names { (held : List ℕ) → length held ≤ 8 →
        (flat_function functions.now.funcs.now (scope_of f.now held) f.now).names ≤ 4294967295 }
    ensures { IfOk result (λ q. IsFlat functions.now.funcs.now f.now q) }
{
    let variables = places::first_places(alloc, f)?;
    let plain = holding(alloc, functions, &variables, &[], f)?;
    let held = held_literals(alloc, variables.len() as u32, plain.body.as_slice())?;
    if held.as_slice().is_empty() {
        return Ok(plain);
    }
    let chosen = holding(alloc, functions, &variables, held.as_slice(), f)?;
    if is_no_larger(&chosen, &plain) {
        Ok(chosen)
    } else {
        Ok(plain)
    }
}

// A function that holds given literals, whose names fit their type.
fn holding(
    alloc: Global,
    functions: &Functions,
    variables: &Numbering,
    held: &[u32],
    f: &Func,
) -> Result<FlatFunc, NoMemory>
    requires few { length variables.now ≤ 32768 }
    requires few_held { length held.now ≤ 8 }
    requires room { length variables.now + commands_bulk f.now.body ≤ 65536 }
    requires names { (flat_function functions.now.funcs.now (scoped variables.now held.now)
        f.now).names ≤ 4294967295 }
    ensures { IfOk result (λ q. q
        ≡ flat_function functions.now.funcs.now (scoped variables.now held.now) f.now) }
{
    let scope = Scope {
        alloc,
        functions,
        variables,
        held,
    };
    let args = scope.variables(f.args.as_slice())?;
    let results = scope.variables(f.results.as_slice())?;
    let mut body = Items::new(alloc);
    settings(&scope, &mut body)?;
    commands(&scope, f.body.as_slice(), &mut body)?;
    let passed = above(args.as_slice()).max(above(results.as_slice()));
    let names = passed.max(above_statements(body.as_slice()));
    Ok(FlatFunc {
        name: f.name.copy()?,
        args,
        results,
        names,
        body,
    })
}
