// What a run of a source program shows.

ghost use Rattle.std.specs.Prelude.{◌≡◌, ◌++◌, ◌+◌, ◌^◌, ◌<◌, ℕ, List};
ghost use Rattle.std.specs.Prelude.{length, slice_get, Some, IfOk, OnOk};
ghost use Rattle.br_image.specs.Scripts.{IsInterpScript};
ghost use Rattle.br_image.specs.Text.{line};
ghost use Rattle.br_words.specs.Layout.{data_base};
ghost use Rattle.br_syntax.specs.declared.program.Func.{Func};
ghost use Rattle.br_texts.specs.InterpText.{byte_in, interp_text, lines_after};
ghost use Rattle.br_texts.specs.Lines.{event_lines, outcome_text};
ghost use Rattle.br_texts.specs.Memory.{AreRanges, range_lines, values};

use crate::lines::{push_bytes_line, push_events, push_outcome};
use crate::ranges::memory_of;
use br_base::NoMemory;
use br_bytes::{ByteMap, Choice, Outcome};
use br_image::InterpScript;
use br_source_meaning::{Finished, Interp};
use br_syntax::Program;
use std::alloc::Global;

/// What the run of a script on a program shows, which calls the function of this number: its
/// events, its end, and after a call that is done the bytes of the script's ranges.
pub fn interp_text(
    alloc: Global,
    script: &InterpScript,
    program: &Program,
    func: u32,
) -> Result<Vec<u8>, NoMemory>
    requires script { (text : List ℕ) × (at : ℕ) × IsInterpScript text script.now at }
    requires func { func < length program.now.funcs }
    ensures { IfOk result (λ text. (f : Func) × (slice_get program.now.funcs func ≡ Some f)
        × (text.items ≡ interp_text script.now program.now.funcs f)) }
{
    let memory = memory_of(alloc, script.mem.as_slice())?;
    let interp = Interp::new(
        alloc,
        program,
        func,
        script.args.as_slice(),
        memory,
        script.answers.as_slice(),
        script.choices.as_slice(),
    )?;
    let finished = interp.run(script.limit)?;
    let text = shown(alloc, &finished, script)?;
    Ok(text)
}

// What a run that has ended shows.
fn shown(alloc: Global, finished: &Finished, script: &InterpScript) -> Result<Vec<u8>, NoMemory>
    requires { AreRanges data_base script.now.mem }
    ensures { IfOk result (λ text. text.items
        ≡ event_lines finished.now.trace ++ line (outcome_text finished.now.outcome)
        ++ lines_after finished.now.outcome finished.now.memory script.now) }
{
    let mut text = Vec::new(alloc);
    push_events(&mut text, finished.trace.as_slice())?;
    push_outcome(&mut text, &finished.outcome)?;
    if let Outcome::Done(_) = &finished.outcome {
        push_ranges(alloc, &mut text, &finished.memory, script.mem.as_slice())?;
    }
    Ok(text)
}

// Adds a line for each range, with the bytes that now stand there.
fn push_ranges(
    alloc: Global,
    text: &mut Vec<u8>,
    memory: &ByteMap,
    ranges: &[Choice],
) -> Result<(), NoMemory>
    requires { AreRanges data_base ranges.now }
    ensures { OnOk result
        (text.new.items ≡ text.old.items ++ range_lines (byte_in memory.now) ranges.now) }
{
    for range in ranges {
        let bytes = memory_bytes(alloc, memory, range.addr, range.bytes.len() as u32)?;
        push_bytes_line(text, range.addr, &bytes)?;
    }
    Ok(())
}

// The bytes at `n` addresses of a memory.
fn memory_bytes(alloc: Global, memory: &ByteMap, a: u32, n: u32) -> Result<Vec<u8>, NoMemory>
    requires { a + n < 2 ^ 32 }
    ensures { IfOk result (λ bytes. bytes.items ≡ values (byte_in memory.now) a n) }
{
    let mut bytes = Vec::new(alloc);
    for i in 0..n {
        bytes.push(memory.byte(a + i).unwrap_or(0))?;
    }
    Ok(bytes)
}
