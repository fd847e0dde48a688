// What a run of an image shows.

ghost use Rattle.std.specs.Prelude.{◌≡◌, ◌≤◌, ◌++◌, ℕ, List, length, IfOk, OnOk};
ghost use Rattle.br_image.specs.Limits.{EntryInLimits};
ghost use Rattle.br_image.specs.Scripts.{IsRunScript};
ghost use Rattle.br_image.specs.Text.{line};
ghost use Rattle.br_words.specs.Layout.{data_base};
ghost use Rattle.br_machine.specs.State.{byte_of, register};
ghost use Rattle.br_texts.specs.Lines.{event_lines, end_text};
ghost use Rattle.br_texts.specs.Memory.{AreRanges, values, range_lines};
ghost use Rattle.br_texts.specs.RunText.{IsRunText, lines_after};

use crate::lines::{push_bytes_line, push_end, push_events};
use crate::ranges::{machine_bytes, memory_of};
use br_base::NoMemory;
use br_bytes::{Choice, Event};
use br_image::{Entry, Image, RunScript};
use br_machine::{End, Machine, Trace, run};
use std::alloc::Global;

/// What the run of a script on an image shows, which calls this entry: its events, its end, and
/// after a call that has ended the bytes of the script's ranges. The room for all events is there
/// before the first step.
pub fn run_text(
    alloc: Global,
    script: &RunScript,
    image: &Image,
    entry: &Entry,
) -> Result<Vec<u8>, NoMemory>
    requires script { (text : List ℕ) × (at : ℕ) × IsRunScript text script.now at }
    requires entry { EntryInLimits (length image.now.code) entry.now }
    ensures { IfOk result (λ text. IsRunText script.now image.now entry.now text.items) }
{
    let mut trace = Trace::with_room(alloc, script.limit)?;
    let memory = memory_of(alloc, script.mem.as_slice())?;
    let mut machine = Machine::start(
        alloc,
        image.layout,
        image.code.as_slice(),
        entry.offset,
        script.args.as_slice(),
        &memory,
        script.junk,
    )?;
    let end = run(
        &mut machine,
        script.answers.as_slice(),
        script.limit,
        &mut trace,
    );
    let text = shown(alloc, &machine, trace.events(), end, entry.results, script)?;
    Ok(text)
}

// What a machine shows after these events, with an end and a number of results.
fn shown(
    alloc: Global,
    machine: &Machine,
    events: &[Event],
    end: End,
    results: u32,
    script: &RunScript,
) -> Result<Vec<u8>, NoMemory>
    requires results { results ≤ 8 }
    requires ranges { AreRanges data_base script.now.mem }
    ensures { IfOk result (λ text. text.items ≡ event_lines events.now
        ++ line (end_text (values (register machine.now.state) 10 results) end)
        ++ lines_after end machine.now.state script.now) }
{
    let mut text = Vec::new(alloc);
    push_events(&mut text, events)?;
    let words = words_in(alloc, machine, results)?;
    push_end(&mut text, &words, end)?;
    if end == End::Halted {
        push_ranges(alloc, &mut text, machine, script.mem.as_slice())?;
    }
    Ok(text)
}

// The words in the first registers of results, at most eight.
fn words_in(alloc: Global, machine: &Machine, count: u32) -> Result<Vec<u32>, NoMemory>
    requires { count ≤ 8 }
    ensures { IfOk result (λ words. words.items ≡ values (register machine.now.state) 10 count) }
{
    let mut words = Vec::new(alloc);
    for i in 0..count {
        words.push(machine.register(10 + i))?;
    }
    Ok(words)
}

// Adds a line for each range, with the bytes that now stand there.
fn push_ranges(
    alloc: Global,
    text: &mut Vec<u8>,
    machine: &Machine,
    ranges: &[Choice],
) -> Result<(), NoMemory>
    requires { AreRanges data_base ranges.now }
    ensures { OnOk result
        (text.new.items ≡ text.old.items ++ range_lines (byte_of machine.now.state) ranges.now) }
{
    for range in ranges {
        let count = range.bytes.len() as u32;
        let bytes = machine_bytes(alloc, machine, range.addr, count)?;
        push_bytes_line(text, range.addr, &bytes)?;
    }
    Ok(())
}
