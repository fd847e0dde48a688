// The interpreter.

ghost use Rattle.std.specs.Prelude.{◌≡◌, ◌<◌, length, slice_get, Some, IfOk};
ghost use Rattle.br_source_meaning.specs.Calls.{call};
ghost use Rattle.br_source_meaning.specs.Names.{function_names};
ghost use Rattle.br_source_meaning.specs.Numbered.{named_function, HasSourceResults};
ghost use Rattle.br_source_meaning.specs.Finished.{called_of, outcome_at};

use crate::functions::Functions;
use crate::numbered_program::NumberedProgram;
use crate::running::{Running, Stop};
use crate::variables::Variables;
use br_base::{NoMemory, OrMemory};
use br_bytes::{ByteMap, Choice, Event, Outcome};
use br_syntax::{Func, Program};
use sqlite_items::Items;
use std::alloc::Global;

/// A call of a function that is to be run: the program and its function, the words of the
/// arguments, the memory, what device words will be read as in turn, and the buffers that will be
/// given in turn.
#[derive(Debug, Drop)]
pub struct Interp<'a> {
    alloc: Global,
    pub program: &'a Program,
    pub func: &'a Func,
    pub args: &'a [u32],
    pub memory: ByteMap,
    pub answers: &'a [u32],
    pub choices: &'a [Choice],
}

/// A run that has ended: how, its events with the oldest first, and the memory at that moment.
#[derive(Debug, Drop)]
pub struct Finished {
    pub outcome: Outcome,
    pub trace: Items<Event>,
    pub memory: ByteMap,
}

impl<'a> Interp<'a> {
    /// A call of a program's function by its number, counted from 0 in the order of the text. An
    /// accepted program has no fault of names, and its functions are given as many words as they
    /// have arguments; what other calls do is defined as well.
    pub fn new(
        alloc: Global,
        p: &'a Program,
        func: u32,
        args: &'a [u32],
        memory: ByteMap,
        answers: &'a [u32],
        choices: &'a [Choice],
    ) -> Result<Interp<'a>, NoMemory>
        requires { func < length p.now.funcs }
        ensures program { IfOk result (λ i. i.program.now ≡ p.now) }
        ensures func { IfOk result (λ i. slice_get p.now.funcs func ≡ Some i.func.now) }
        ensures args { IfOk result (λ i. i.args.now ≡ args.now) }
        ensures memory { IfOk result (λ i. i.memory ≡ memory) }
        ensures answers { IfOk result (λ i. i.answers.now ≡ answers.now) }
        ensures choices { IfOk result (λ i. i.choices.now ≡ choices.now) }
    {
        Ok(Interp {
            alloc,
            program: p,
            func: &p.funcs.as_slice()[func as usize],
            args,
            memory,
            answers,
            choices,
        })
    }

    /// Runs the call from outside, with this fuel: how many turns of loops and calls may begin. The
    /// run is the one that the language defines, however deep commands and calls stand in one
    /// another.
    pub fn run(self, fuel: u32) -> Result<Finished, NoMemory>
        ensures { IfOk result (λ done. called_of done
            ≡ call self.entry.program.now.funcs self.entry.func.now self.entry.args.now
            self.entry.memory self.entry.answers.now self.entry.choices.now fuel) }
    {
        let alloc = self.alloc;
        let program = NumberedProgram::new(alloc, self.program.funcs.as_slice(), self.func)?;
        let functions = Functions::new(alloc, &program)?;
        called(self, &functions, fuel)
    }
}

// The call, given the functions of its program, of which the one that is called has its parts.
fn called<'x, 'a>(
    interp: Interp<'a>,
    functions: &Functions<'x, 'a>,
    fuel: u32,
) -> Result<Finished, NoMemory>
    requires { HasSourceResults functions.now.program.now.entry }
    ensures { IfOk result (λ done.
        called_of done ≡ call functions.now.funcs.now
        (named_function (function_names functions.now.funcs.now) functions.now.program.now.entry)
        interp.entry.args.now interp.entry.memory interp.entry.answers.now interp.entry.choices.now
        fuel) }
{
    let alloc = interp.alloc;
    let args = interp.args;
    let mut running = Running {
        variables: Variables::new(alloc, &functions.program.entry.names)?,
        memory: interp.memory,
        trace: Items::new(alloc),
        answers: interp.answers,
        choices: interp.choices,
        fuel,
    };
    match running.function(alloc, functions, args) {
        Ok(words) => Ok(ended(running, Outcome::Done(words))),
        Err(OrMemory::Fault(stop)) => Ok(ended(running, outcome_at(stop))),
        Err(OrMemory::Memory) => Err(NoMemory),
    }
}

// A run that ended so.
fn ended(running: Running, outcome: Outcome) -> Finished
    ensures { called_of result
        ≡ record { outcome = outcome; trace = running.entry.trace; memory = running.entry.memory } }
{
    Finished {
        outcome,
        trace: running.trace,
        memory: running.memory,
    }
}

// How a run that stopped ended.
fn outcome_at(stop: Stop) -> Outcome
    ensures { result ≡ outcome_at stop }
{
    match stop {
        Stop::Waiting(a) => Outcome::Waiting(a),
        Stop::OutOfFuel => Outcome::OutOfFuel,
        Stop::Undefined => Outcome::Undefined,
        Stop::NoChoice => Outcome::NoChoice,
    }
}
