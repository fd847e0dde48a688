// The top call.

ghost use Rattle.std.specs.Prelude.{◌≡◌, ◌≤◌, ℕ, List, Some, ◌⊎◌, IsFalse};
ghost use Rattle.std.specs.Io.KnownBytes.{Appends};
ghost use Rattle.br_base.specs.Ends.{Rose, AppendsSome};
ghost use Rattle.br_top.specs.declared.command.Command.{Command};
ghost use Rattle.br_top.specs.declared.command.Command.TheVariants.{Compile};
ghost use Rattle.br_top.specs.declared.trouble.Reason.{Reason};
ghost use Rattle.br_top.specs.Commands.{AreWords, AreWordsOf, Refuses, reads_input};
ghost use Rattle.br_top.specs.Lines.{usage_line, read_fault_line, write_fault_line, no_memory_line};
ghost use Rattle.br_top.specs.Refusals.{reason_line};
ghost use Rattle.br_top.specs.Answers.{IsDueText, IsDueLine, IsUnrefused};
ghost use Rattle.br_top.specs.Answers.{FailsWithin, StopsWithin, WritesGoodImage};
ghost use Rattle.br_top.specs.Reports.{Tells};

use crate::command::command_of;
use crate::delivery::{answer_line, answer_text, tell};
use crate::lines::{no_memory_line, read_fault_line, usage_line};
use crate::making::made_text;
use crate::refusal_lines::reason_line;
use crate::trouble::{Reason, Trouble};
use br_base::{NoMemory, Sink, Source, Status};
use br_lightbulb_image::firmware_images_stay_good;
use std::alloc::Global;

/// Does what the words ask for, which leave out the program's own name.
///
/// First the words are judged, which takes no memory; then the input is read to its end, or to the
/// byte after the command's limit; then it is refused, or the whole text of the answer is made; and
/// then the text is written. A command that does not read its input leaves it as it is. Want of
/// memory may come at any moment after the words.
pub fn tool<S: Source, O: Sink, E: Sink>(
    alloc: Global,
    words: &[String],
    input: &mut S,
    out: &mut O,
    err: &mut E,
) -> Status
    // The output gained the text that is due, and standard error nothing. No end failed.
    ensures done { result ≡ Status.Done → (text : List ℕ)
        × IsDueText words.now (S.left input.old) (S.left input.new) text
        × Appends (O.held out.old) (O.held out.new) text
        × (S.faults input.new ≡ S.faults input.old)
        × (O.faults out.new ≡ O.faults out.old)
        × (err.new ≡ err.old) }

    // Where the text that was read stands for the firmware, no run of the image that was written
    // ever leaves the firmware's trace language, and none traps.
    ensures lightbulb { result ≡ Status.Done → AreWordsOf words.now Compile →
        WritesGoodImage (S.left input.old) (S.left input.new) (O.held out.old) (O.held out.new) }

    // What was read is refused, and standard error gained the line that says why.
    ensures refused { result ≡ Status.Refused → (line : List ℕ)
        × IsDueLine words.now (S.left input.old) (S.left input.new) line
        × Appends (E.held err.old) (E.held err.new) line
        × (out.new ≡ out.old) }

    // The words are no command's, and then nothing is read; nor is it for a command that does not
    // read its input.
    ensures usage { result ≡ Status.Usage →
        ¬ AreWords words.now
        × Appends (E.held err.old) (E.held err.new) usage_line
        × (out.new ≡ out.old) }
    ensures unread { ¬ AreWords words.now → input.new ≡ input.old }
    ensures left_alone { (command : Command) → AreWordsOf words.now command →
        IsFalse (reads_input command) → input.new ≡ input.old }

    // The input failed, and nothing was read after that.
    ensures read_fault { result ≡ Status.ReadFault →
        FailsWithin words.now (S.left input.old) (S.left input.new)
        × Rose (S.faults input.old) (S.faults input.new)
        × Tells (E.faults err.old) (E.faults err.new) (E.held err.old) (E.held err.new)
        read_fault_line
        × (out.new ≡ out.old) }

    // The output failed at the text that is due, or standard error at the line of a refusal or at
    // the usage line.
    ensures write_fault { result ≡ Status.WriteFault →
        ((text : List ℕ)
        × IsDueText words.now (S.left input.old) (S.left input.new) text
        × (S.faults input.new ≡ S.faults input.old)
        × Rose (O.faults out.old) (O.faults out.new)
        × AppendsSome (O.held out.old) (O.held out.new) text
        × Tells (E.faults err.old) (E.faults err.new) (E.held err.old) (E.held err.new)
        write_fault_line)
        ⊎ ((line : List ℕ)
        × (IsDueLine words.now (S.left input.old) (S.left input.new) line
        ⊎ (¬ AreWords words.now × (line ≡ usage_line)))
        × Rose (E.faults err.old) (E.faults err.new)
        × AppendsSome (E.held err.old) (E.held err.new) line
        × (out.new ≡ out.old)) }

    // There was no memory.
    ensures no_memory { result ≡ Status.NoMemory →
        StopsWithin words.now (S.left input.old) (S.left input.new)
        × Tells (E.faults err.old) (E.faults err.new) (E.held err.old) (E.held err.new)
        no_memory_line
        × (out.new ≡ out.old) }

    // Each answer comes wherever its cause is there and no end fails, but for want of memory.
    ensures other_words { ¬ AreWords words.now →
        (result ≡ Status.Usage)
        ⊎ ((result ≡ Status.WriteFault) × Rose (E.faults err.old) (E.faults err.new)) }
    ensures refusable { (command : Command) (bytes : List ℕ) (reason : Reason) →
        AreWordsOf words.now command → S.left input.old ≡ Some bytes →
        Refuses command bytes reason →
        (result ≡ Status.Refused) ⊎ (result ≡ Status.NoMemory)
        ⊎ ((result ≡ Status.ReadFault) × Rose (S.faults input.old) (S.faults input.new))
        ⊎ ((result ≡ Status.WriteFault) × Rose (E.faults err.old) (E.faults err.new)) }
    ensures acceptable { (command : Command) (bytes : List ℕ) →
        AreWordsOf words.now command → S.left input.old ≡ Some bytes → IsUnrefused command bytes →
        (result ≡ Status.Done) ⊎ (result ≡ Status.NoMemory)
        ⊎ ((result ≡ Status.ReadFault) × Rose (S.faults input.old) (S.faults input.new))
        ⊎ ((result ≡ Status.WriteFault) × Rose (O.faults out.old) (O.faults out.new)) }

    // What needs no input is done whatever the input is.
    ensures needs_no_input { (command : Command) → AreWordsOf words.now command →
        IsFalse (reads_input command) →
        (result ≡ Status.Done) ⊎ (result ≡ Status.NoMemory)
        ⊎ ((result ≡ Status.WriteFault) × Rose (O.faults out.old) (O.faults out.new)) }

    // No count of faults falls.
    ensures counts { (S.faults input.old ≤ S.faults input.new)
        × (O.faults out.old ≤ O.faults out.new)
        × (E.faults err.old ≤ E.faults err.new) }
{
    match command_of(words) {
        None => answer_line(err, usage_line(), Status::Usage),
        Some(command) => match made_text(alloc, command, input) {
            Ok(text) => {
                firmware_images_stay_good();
                answer_text(out, err, &text)
            }
            Err(Trouble::Refused(reason)) => answer_refusal(alloc, err, &reason),
            Err(Trouble::ReadFault) => {
                tell(err, read_fault_line());
                Status::ReadFault
            }
            Err(Trouble::Memory) => {
                tell(err, no_memory_line());
                Status::NoMemory
            }
        },
    }
}

// Writes the line of a refusal.
fn answer_refusal<E: Sink>(alloc: Global, err: &mut E, reason: &Reason) -> Status
    ensures answered { ((result ≡ Status.Refused)
        × Appends (E.held err.old) (E.held err.new) (reason_line reason.now))
        ⊎ ((result ≡ Status.WriteFault) × Rose (E.faults err.old) (E.faults err.new)
        × AppendsSome (E.held err.old) (E.held err.new) (reason_line reason.now))
        ⊎ ((result ≡ Status.NoMemory)
        × Tells (E.faults err.old) (E.faults err.new) (E.held err.old) (E.held err.new)
        no_memory_line) }
    ensures count { E.faults err.old ≤ E.faults err.new }
{
    match reason_line(alloc, reason) {
        Ok(line) => answer_line(err, &line, Status::Refused),
        Err(NoMemory) => {
            tell(err, no_memory_line());
            Status::NoMemory
        }
    }
}
