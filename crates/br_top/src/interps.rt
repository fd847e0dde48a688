// What an interp script shows on the program of the source text that follows it.

ghost use Rattle.std.specs.Prelude.{◌≡◌, ◌<◌, ◌≤◌, ℕ, List, length, Some, slice_get, IfOk, IfErr};
ghost use Rattle.br_syntax.specs.declared.program.Func.{Func};
ghost use Rattle.br_syntax.specs.Functions.{function_named};
ghost use Rattle.br_compile.specs.Refusal.{Accepts};
ghost use Rattle.br_top.specs.Answers.{IsUnrefused};
ghost use Rattle.br_top.specs.Commands.{Adds, Refuses, limit_of};
ghost use Rattle.br_top.specs.Scripted.{AddsInterp, IsFunctionFault, RefusesText};
ghost use Rattle.br_top.specs.Troubles.{IsRefusedFor};

use crate::command::Command;
use crate::trouble::{Reason, Trouble};
use br_compile::texts_are_accepted_or_at_fault;
use br_image::{InterpScript, one_interp_script_or_one_fault, read_interp};
use br_measure::{Checked, check};
use br_sexpr::{MOST_BYTES, read};
use br_syntax::{Program, from_tree};
use br_texts::interp_text;
use std::alloc::Global;

/// What the run of a script on the program after it shows.
pub(crate) fn interp_output(alloc: Global, bytes: &[u8]) -> Result<Vec<u8>, Trouble>
    requires { length bytes.now ≤ limit_of Command.Interp }
    ensures made { IfOk result (λ text. Adds Command.Interp bytes.now text.items) }
    ensures unrefused { IfOk result (λ _. IsUnrefused Command.Interp bytes.now) }
    ensures refused { IfErr result (IsRefusedFor (Refuses Command.Interp bytes.now)) }
{
    interps_are_unrefused();
    let (script, at) = read_interp(alloc, bytes)?;
    let checked = accepted(alloc, &bytes[at..])?;
    let function = called_function(&checked, &script)?;
    Ok(interp_text(alloc, &script, checked.program(), function)?)
}

// The program that a source text is accepted as.
fn accepted(alloc: Global, text: &[u8]) -> Result<Checked, Trouble>
    ensures accepted { IfOk result (λ program. Accepts text.now program) }
    ensures refused { IfErr result (IsRefusedFor (RefusesText text.now)) }
{
    if text.len() > MOST_BYTES {
        return Err(Trouble::Refused(Reason::TextTooLong));
    }
    let trees = read(alloc, text)?;
    let program = from_tree(alloc, trees.as_slice())?;
    Ok(check(alloc, program)?)
}

// The number of the function that a script calls, with as many arguments as it has.
fn called_function(checked: &Checked, script: &InterpScript) -> Result<u32, Trouble>
    ensures named { IfOk result (λ n. (f : Func) × (slice_get checked.now n ≡ Some f)
        × (function_named checked.now script.now.call ≡ Some f)
        × (length script.now.args ≡ length f.args)) }
    ensures refused { IfErr result (IsRefusedFor (IsFunctionFault checked.now script.now)) }
{
    let Some(number) = checked.find(script.call.bytes()) else {
        return Err(Trouble::Refused(Reason::UnknownEntry));
    };
    let count = argument_count(checked.program(), number);
    if script.args.len() == count as usize {
        return Ok(number);
    }
    Err(Trouble::Refused(Reason::WrongCount(count)))
}

// How many arguments the function of this number has, at most eight.
fn argument_count(program: &Program, number: u32) -> u32
    requires { number < length program.now.funcs }
    ensures { (f : Func) → slice_get program.now.funcs number ≡ Some f → result ≡ length f.args }
{
    program.funcs.as_slice()[number as usize].args.len() as u32
}

// What a run adds a text for is not refused.
fn interps_are_unrefused()
    ensures { (bytes text : List ℕ) → length bytes ≤ limit_of Command.Interp →
        AddsInterp bytes text → IsUnrefused Command.Interp bytes }
{
    one_interp_script_or_one_fault();
    texts_are_accepted_or_at_fault();
}
