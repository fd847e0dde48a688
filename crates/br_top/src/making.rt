// Making texts: from the bytes of the input to the whole text of the answer.

ghost use Rattle.std.specs.Prelude.{◌≡◌, ◌≤◌, ◌+◌, ℕ, List, length, IfOk, OnOk};
ghost use Rattle.std.specs.Prelude.{IfErr, Err, IsErrOf, IsTrue, IsFalse};
ghost use Rattle.br_base.specs.Ends.{Rose, ConsumesAtMost, ConsumesMany};
ghost use Rattle.br_top.specs.declared.trouble.Reason.{Reason};
ghost use Rattle.br_top.specs.Commands.{Adds, AddsFirmware, Refuses, limit_of, reads_input};
ghost use Rattle.br_top.specs.Answers.{ReadsAll, ReadsRefused, IsUnrefused};
ghost use Rattle.br_top.specs.Troubles.{IsRefusedFor};

use crate::command::{Command, limit_of, reads_input};
use crate::interps::interp_output;
use crate::runs::run_output;
use crate::trouble::Trouble;
use br_base::{NoMemory, ReadEnd, Source, read_all};
use br_compile::compile;
use br_image::{one_trace_or_one_fault, read_trace};
use br_lightbulb::program;
use br_sexpr::one_answer;
use br_syntax::{from_tree, offsets_left_out, to_tree};
use br_texts::verdict;
use std::alloc::Global;

/// The text that a command makes of what is on the input, which is read where the command reads it.
pub(crate) fn made_text<S: Source>(
    alloc: Global,
    command: Command,
    input: &mut S,
) -> Result<Vec<u8>, Trouble>
    ensures made { IfOk result
        (λ text. (bytes : List ℕ) × ReadsAll command (S.left input.old) (S.left input.new) bytes
        × IsUnrefused command bytes × Adds command bytes text.items) }
    ensures refused { (reason : Reason) → result ≡ Err (Trouble.Refused reason) →
        ReadsRefused command (S.left input.old) (S.left input.new) reason }
    ensures failed { IsErrOf result Trouble.ReadFault →
        Rose (S.faults input.old) (S.faults input.new)
        × IsTrue (reads_input command)
        × ConsumesAtMost (S.left input.old) (S.left input.new) (limit_of command) }
    ensures memory { IsErrOf result Trouble.Memory →
        ConsumesAtMost (S.left input.old) (S.left input.new) (limit_of command + 1) }
    ensures unread { IsFalse (reads_input command) → input.new ≡ input.old }
    ensures sound { OnOk result (S.faults input.new ≡ S.faults input.old) }
    ensures count { S.faults input.old ≤ S.faults input.new }
{
    let bytes = input_bytes(alloc, command, input)?;
    text_of(alloc, command, &bytes)
}

// All bytes of a command's input, and none for a command that does not read it.
fn input_bytes<S: Source>(
    alloc: Global,
    command: Command,
    input: &mut S,
) -> Result<Vec<u8>, ReadEnd>
    ensures read { IfOk result
        (λ bytes. ReadsAll command (S.left input.old) (S.left input.new) bytes.items) }
    ensures too_long { IsErrOf result ReadEnd.TooLong → IsTrue (reads_input command)
        × ConsumesMany (S.left input.old) (S.left input.new) (limit_of command + 1) }
    ensures failed { IsErrOf result ReadEnd.Failed → Rose (S.faults input.old) (S.faults input.new)
        × IsTrue (reads_input command)
        × ConsumesAtMost (S.left input.old) (S.left input.new) (limit_of command) }
    ensures memory { IsErrOf result ReadEnd.Memory →
        ConsumesAtMost (S.left input.old) (S.left input.new) (limit_of command + 1) }
    ensures unread { IsFalse (reads_input command) → input.new ≡ input.old }
    ensures sound { OnOk result (S.faults input.new ≡ S.faults input.old) }
    ensures count { S.faults input.old ≤ S.faults input.new }
{
    if !reads_input(command) {
        return Ok(Vec::new(alloc));
    }
    read_all(alloc, input, limit_of(command))
}

// The text that a command makes of an input of these bytes.
fn text_of(alloc: Global, command: Command, bytes: &[u8]) -> Result<Vec<u8>, Trouble>
    requires { length bytes.now ≤ limit_of command }
    ensures made { IfOk result (λ text. Adds command bytes.now text.items) }
    ensures unrefused { IfOk result (λ _. IsUnrefused command bytes.now) }
    ensures refused { IfErr result (IsRefusedFor (Refuses command bytes.now)) }
{
    match command {
        Command::Compile => image_text(alloc, bytes),
        Command::Print => canonical_text(alloc, bytes),
        Command::List => listing_text(alloc, bytes),
        Command::Run => run_output(alloc, bytes),
        Command::Interp => interp_output(alloc, bytes),
        Command::Firmware => Ok(firmware_text(alloc)?),
        Command::Judge => verdict_text(alloc, bytes),
    }
}

// The text of the image of a source text.
fn image_text(alloc: Global, bytes: &[u8]) -> Result<Vec<u8>, Trouble>
    requires { length bytes.now ≤ limit_of Command.Compile }
    ensures made { IfOk result (λ text. Adds Command.Compile bytes.now text.items) }
    ensures unrefused { IfOk result (λ _. IsUnrefused Command.Compile bytes.now) }
    ensures refused { IfErr result (IsRefusedFor (Refuses Command.Compile bytes.now)) }
{
    let image = compile(alloc, bytes)?;
    Ok(br_image::print(alloc, &image)?)
}

// The canonical text of the trees of a source text.
fn canonical_text(alloc: Global, bytes: &[u8]) -> Result<Vec<u8>, Trouble>
    requires { length bytes.now ≤ limit_of Command.Print }
    ensures made { IfOk result (λ text. Adds Command.Print bytes.now text.items) }
    ensures unrefused { IfOk result (λ _. IsUnrefused Command.Print bytes.now) }
    ensures refused { IfErr result (IsRefusedFor (Refuses Command.Print bytes.now)) }
{
    one_answer();
    let trees = br_sexpr::read(alloc, bytes)?;
    let _program = from_tree(alloc, trees.as_slice())?;
    Ok(br_sexpr::print(alloc, trees.as_slice())?)
}

// The listing of the image that a text is the text of.
fn listing_text(alloc: Global, bytes: &[u8]) -> Result<Vec<u8>, Trouble>
    requires { length bytes.now ≤ limit_of Command.List }
    ensures made { IfOk result (λ text. Adds Command.List bytes.now text.items) }
    ensures unrefused { IfOk result (λ _. IsUnrefused Command.List bytes.now) }
    ensures refused { IfErr result (IsRefusedFor (Refuses Command.List bytes.now)) }
{
    let image = br_image::read(alloc, bytes)?;
    Ok(br_listing::list(alloc, &image)?)
}

// The canonical text of the firmware.
fn firmware_text(alloc: Global) -> Result<Vec<u8>, NoMemory>
    ensures { IfOk result (λ text. AddsFirmware text.items) }
{
    offsets_left_out();
    let functions = to_tree(alloc, &program(alloc)?)?;
    br_sexpr::print(alloc, functions.as_slice())
}

// The verdict on the events that a trace text tells.
fn verdict_text(alloc: Global, bytes: &[u8]) -> Result<Vec<u8>, Trouble>
    requires { length bytes.now ≤ limit_of Command.Judge }
    ensures made { IfOk result (λ text. Adds Command.Judge bytes.now text.items) }
    ensures unrefused { IfOk result (λ _. IsUnrefused Command.Judge bytes.now) }
    ensures refused { IfErr result (IsRefusedFor (Refuses Command.Judge bytes.now)) }
{
    one_trace_or_one_fault();
    let events = read_trace(alloc, bytes)?;
    Ok(verdict(alloc, events.as_slice())?)
}
