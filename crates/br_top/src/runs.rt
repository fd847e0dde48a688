// What a run script shows on the image that follows it.

ghost use Rattle.std.specs.Prelude.{◌≡◌, ◌≤◌, ℕ, List, length, Some, IfOk, IfErr};
ghost use Rattle.br_image.specs.Limits.{EntryInLimits};
ghost use Rattle.br_texts.specs.Entries.{entry_named};
ghost use Rattle.br_top.specs.Answers.{IsUnrefused};
ghost use Rattle.br_top.specs.Commands.{Adds, Refuses, limit_of};
ghost use Rattle.br_top.specs.Scripted.{AddsRun, IsEntryFault};
ghost use Rattle.br_top.specs.Troubles.{IsRefusedFor};

use crate::command::Command;
use crate::trouble::{Reason, Trouble};
use br_image::{
    Entry, Image, RunScript, one_image_or_one_fault, one_run_script_or_one_fault, read, read_run,
    two_images_have_two_texts,
};
use br_texts::{entry_named, run_text};
use std::alloc::Global;

/// What the run of a script on the image after it shows.
pub(crate) fn run_output(alloc: Global, bytes: &[u8]) -> Result<Vec<u8>, Trouble>
    requires { length bytes.now ≤ limit_of Command.Run }
    ensures made { IfOk result (λ text. Adds Command.Run bytes.now text.items) }
    ensures unrefused { IfOk result (λ _. IsUnrefused Command.Run bytes.now) }
    ensures refused { IfErr result (IsRefusedFor (Refuses Command.Run bytes.now)) }
{
    runs_are_unrefused();
    let (script, at) = read_run(alloc, bytes)?;
    let image = read(alloc, &bytes[at..])?;
    let entry = called_entry(&image, &script)?;
    Ok(run_text(alloc, &script, &image, entry)?)
}

// The entry that a script calls, with as many arguments as it takes.
fn called_entry<'a>(image: &'a Image, script: &RunScript) -> Result<&'a Entry, Trouble>
    ensures named { IfOk result (λ e. entry_named image.now.entries script.now.call ≡ Some e.now) }
    ensures counted { IfOk result (λ e. length script.now.args ≡ e.now.args) }
    ensures limits { IfOk result (λ e. EntryInLimits (length image.now.code) e.now) }
    ensures refused { IfErr result (IsRefusedFor (IsEntryFault image.now script.now)) }
{
    let Some(entry) = entry_named(image, script.call.bytes()) else {
        return Err(Trouble::Refused(Reason::UnknownEntry));
    };
    if script.args.len() == entry.args as usize {
        return Ok(entry);
    }
    Err(Trouble::Refused(Reason::WrongCount(entry.args)))
}

// What a run adds a text for is not refused.
fn runs_are_unrefused()
    ensures { (bytes text : List ℕ) → length bytes ≤ limit_of Command.Run → AddsRun bytes text →
        IsUnrefused Command.Run bytes }
{
    one_run_script_or_one_fault();
    one_image_or_one_fault();
    two_images_have_two_texts();
}
