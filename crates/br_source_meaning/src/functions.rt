// The functions of a program, by number and by name.

ghost use Rattle.std.specs.Prelude.{◌≡◌, ℕ, List, map, IfOk, option_copied};
ghost use Rattle.std.specs.Option.{option_map};
ghost use Rattle.std.specs.Coded.{Coded-set, coded_list, coded_option};
ghost use Rattle.br_syntax.specs.contracts.program.Func as func;
ghost use Rattle.br_syntax.specs.Functions.{function_named};
ghost use Rattle.br_source_meaning.specs.Names.{function_names};
ghost use Rattle.br_source_meaning.specs.Numbered.{named_function, target_name};

use crate::numbered::{NumberedFunc, Target};
use crate::numbered_program::NumberedProgram;
use br_base::NoMemory;
use br_syntax::Func;
use sqlite_items::Items;
use std::alloc::Global;

/// The functions of a program: for the number of each, the first of its name.
#[derive(Drop)]
pub(crate) struct Functions<'x, 'a> {
    pub(crate) funcs: &'a [Func],
    pub(crate) program: &'x NumberedProgram<'a>,
    by_number: Items<Option<&'x NumberedFunc<'a>>>,
    ghost same: { program.now.index.funcs.now ≡ funcs.now } by { Coded-set
        (coded_list func.the_row.coded) _ _ },
    ghost numbered: { map (λ f. option_map (named_function (function_names funcs.now))
        (option_copied f)) by_number
        ≡ map (λ f. function_named funcs.now f.name) funcs.now } by { Coded-set
            (coded_list (coded_option func.the_row.coded)) _ _ },
}

impl<'x, 'a> Functions<'x, 'a> {
    /// The functions of a program.
    pub(crate) fn new(
        alloc: Global,
        program: &'x NumberedProgram<'a>,
    ) -> Result<Functions<'x, 'a>, NoMemory>
        ensures funcs { IfOk result
            (λ functions. functions.funcs.now ≡ program.now.index.funcs.now) }
        ensures program { IfOk result (λ functions. functions.program.now ≡ program.now) }
    {
        Ok(Functions {
            funcs: program.index.funcs,
            program,
            by_number: first_by_number(alloc, program)?,
        })
    }

    /// The first function of the name that a call has.
    pub(crate) fn callee(&self, callee: &Target) -> Option<&'x NumberedFunc<'a>>
        ensures { option_map (named_function (function_names self.now.funcs.now))
            (option_copied result)
            ≡ function_named self.now.funcs.now
            (target_name (function_names self.now.funcs.now) callee.now) }
    {
        match callee {
            Target::Number(k) => match self.by_number.get(*k) {
                Some(f) => *f,
                None => self.program.first(b"".as_slice()),
            },
            Target::Missing(name) => self.program.first(name.bytes()),
        }
    }
}

// For each function the first of its name.
fn first_by_number<'x, 'a>(
    alloc: Global,
    program: &'x NumberedProgram<'a>,
) -> Result<Items<Option<&'x NumberedFunc<'a>>>, NoMemory>
    ensures { IfOk result (λ found.
        map (λ f. option_map (named_function (function_names program.now.index.funcs.now))
        (option_copied f)) found
        ≡ map (λ f. function_named program.now.index.funcs.now f.name)
        program.now.index.funcs.now) }
{
    let mut found = Items::new(alloc);
    for f in program.index.funcs {
        found.push(program.first(f.name.bytes()))?;
    }
    Ok(found)
}
