// A program with numbers in place of names.

ghost use Rattle.std.specs.Prelude.{◌≡◌, map, IfOk, option_copied};
ghost use Rattle.std.specs.Option.{option_map};
ghost use Rattle.std.specs.Coded.{Coded-set, coded_list};
ghost use Rattle.br_syntax.specs.contracts.program.Func as func;
ghost use Rattle.br_syntax.specs.Functions.{function_named};
ghost use Rattle.br_source_meaning.specs.Names.{function_names};
ghost use Rattle.br_source_meaning.specs.Numbered.{named_function, HasSourceResults};

use crate::numbered::NumberedFunc;
use crate::numbering::{function, functions};
use br_base::NoMemory;
use br_numbering::Index;
use br_syntax::Func;
use sqlite_items::Items;
use std::alloc::Global;

/// A program and the function that is called first, with numbers in place of names. A function has
/// its place in the text as its number, and a name stands for the first function that has it.
#[derive(Drop)]
pub(crate) struct NumberedProgram<'a> {
    pub(crate) index: Index<'a>,
    pub(crate) funcs: Items<NumberedFunc<'a>>,
    pub(crate) entry: NumberedFunc<'a>,
    pub(crate) ghost named: { map (named_function (function_names index.funcs.now)) funcs
        ≡ index.funcs.now } by { Coded-set (coded_list func.the_row.coded) _ _ },
}

impl<'a> NumberedProgram<'a> {
    /// The program of these functions, and a function of it.
    pub(crate) fn new(
        alloc: Global,
        funcs: &'a [Func],
        entry: &'a Func,
    ) -> Result<NumberedProgram<'a>, NoMemory>
        ensures index { IfOk result (λ p. p.index.funcs.now ≡ funcs.now) }
        ensures funcs { IfOk result
            (λ p. map (named_function (function_names p.index.funcs.now)) p.funcs ≡ funcs.now) }
        ensures entry { IfOk result
            (λ p. named_function (function_names p.index.funcs.now) p.entry ≡ entry.now) }
        ensures results { IfOk result (λ p. HasSourceResults p.entry) }
    {
        let index = Index::new(alloc, funcs)?;
        let numbered = functions(alloc, &index, funcs)?;
        let entry = function(alloc, &index, entry)?;
        Ok(NumberedProgram {
            index,
            funcs: numbered,
            entry,
        })
    }

    /// The first function of a name.
    pub(crate) fn first(&self, name: &[u8]) -> Option<&NumberedFunc<'a>>
        ensures { option_map (named_function (function_names self.now.index.funcs.now))
            (option_copied result)
            ≡ function_named self.now.index.funcs.now name.now }
    {
        match self.index.number(name) {
            Some(n) => Some(&self.funcs.as_slice()[n]),
            None => None,
        }
    }
}
