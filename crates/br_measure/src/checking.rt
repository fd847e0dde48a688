// Programs that keep every rule on names, bulk, recursion and stack.

ghost use Rattle.std.specs.Prelude.{◌≡◌, ℕ, ◌<◌, ◌≤◌, List, Some, length, map, min, slice_get};
ghost use Rattle.std.specs.Prelude.{IfOk, IfErr};
ghost use Rattle.br_base.specs.Faults.{IfFault};
ghost use Rattle.br_syntax.specs.declared.program.Func.{Func};
ghost use Rattle.br_syntax.specs.Functions.{number_named};
ghost use Rattle.br_measure.specs.Bulk.{bulk};
ghost use Rattle.br_measure.specs.Measure.{measure};
ghost use Rattle.br_measure.specs.Faults.{IsFault, IsSound};

use crate::bulk::bulk_of;
use crate::faults::NameFault;
use crate::phases::{Examined, examine};
use br_base::{NoMemory, OrMemory};
use br_syntax::{Func, Program};
use sqlite_items::Items;
use std::alloc::Global;
use std::marker::Model;

/// A program with no fault of names, bulk, recursion or stack. Contracts see its functions.
#[derive(Drop)]
pub struct Checked {
    program: Program,
    bulk: u32,
    measures: Items<u32>,
}

impl Model for Checked {
    ghost use Rattle.std.specs.Prelude.{List};
    ghost use Rattle.std.specs.Coded.{coded_list};
    ghost use Rattle.br_syntax.specs.declared.program.Func.{Func};
    ghost use Rattle.br_syntax.specs.contracts.program.Func as func;

    ghost Value = { List Func };

    ghost coded = { coded_list func.the_row.coded };

    ghost use Rattle.br_measure.specs.Measured.{IsMeasured};

    ghost view = { λ c. c.program.funcs };

    ghost invariant = { λ c. IsMeasured c.program.funcs c.bulk c.measures };
}

/// Keeps a program in which no rule is broken. Otherwise the answer is the fault of the program:
/// the lowest fault of a name, else the bulk where it is above 32,768, else the first function that
/// has a path of calls to itself, else the first function that may need more than 1,048,576 bytes
/// of stack. Answers want of memory too.
pub fn check(alloc: Global, p: Program) -> Result<Checked, OrMemory<NameFault>>
    ensures kept { IfOk result (λ c. c ≡ p.funcs) }
    ensures sound { IfOk result (λ c. IsSound c) }
    ensures fault { IfErr result (λ e. IfFault e (λ fault. IsFault p.funcs fault)) }
{
    let bulk = bulk_of(&p);
    match examine(alloc, p.funcs.as_slice(), bulk)? {
        Examined::Sound(measures) => Ok(Checked {
            program: p,
            bulk,
            measures,
        }),
        Examined::Faulty(fault) => Err(OrMemory::Fault(fault)),
    }
}

impl Checked {
    /// The program.
    pub fn program(&self) -> &Program
        ensures functions { result.now.funcs ≡ self.now }
        ensures sound { IsSound self.now }
    {
        &self.program
    }

    /// The bulk of the program.
    pub fn bulk(&self) -> u32
        ensures { result ≡ bulk self.now }
    {
        self.bulk
    }

    /// The number of the first function of a name, counted from 0 in the order of the text. None
    /// where no function has the name.
    pub fn find(&self, name: &[u8]) -> Option<u32>
        ensures { result ≡ number_named self.now name.now }
    {
        match first_named(self.program.funcs.as_slice(), name) {
            Some(n) => Some(n as u32),
            None => None,
        }
    }

    /// The most bytes of stack that the function numbered `f` may need.
    pub fn measure(&self, f: u32) -> u32
        requires { f < length self.now }
        ensures value { (g : Func) → slice_get self.now f ≡ Some g → result ≡ measure self.now g }
        ensures limit { result ≤ 1048576 }
    {
        self.measures.as_slice()[f as usize]
    }
}

fn first_named(funcs: &[Func], name: &[u8]) -> Option<usize>
    ensures { result ≡ number_named funcs.now name.now }
{
    funcs.iter().position(|f| f.name.bytes() == name)
}
