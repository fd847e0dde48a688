// Reading one line of a trace text.

ghost use Rattle.std.specs.Prelude.{◌≡◌, ◌≢◌, ◌<◌, ◌^◌, ◌++◌, ◌∷◌, []};
ghost use Rattle.std.specs.Prelude.{ℕ, List, IfSome, IfNone, IfOk};
ghost use Rattle.br_image.specs.declared.traces.lines.Cause.{Cause};
ghost use Rattle.br_image.specs.declared.traces.lines.TraceForm.{TraceForm};
ghost use Rattle.br_image.specs.declared.traces.lines.TraceForm.TheVariants as form;
ghost use Rattle.br_image.specs.TraceLines.{trace_keyword, cause_word, event_fields};
ghost use Rattle.br_image.specs.TraceReading.{IsTraceContent, IsTraceLineOf};

use crate::scripts::fields::{after_space, first_word, only_word, only_words, word_field};
use crate::scripts::parsing::{is_range, parse_buffer};
use crate::traces::lines::{Cause, TraceForm, TraceLine};
use br_base::NoMemory;
use std::alloc::Global;

/// The line that these bytes are. None where they are of none of the forms.
pub(crate) fn parse_trace_line(alloc: Global, bytes: &[u8]) -> Result<Option<TraceLine>, NoMemory>
    ensures { IfOk result (IsTraceLineOf bytes.now) }
{
    let (word, tail) = first_word(bytes);
    match form_named(word) {
        None => Ok(None),
        Some(form) => parse_content(alloc, form, tail),
    }
}

// The form whose lines begin with this word.
fn form_named(word: &[u8]) -> Option<TraceForm>
    ensures some { IfSome result (λ f. word.now ≡ trace_keyword f) }
    ensures none { IfNone result ((f : TraceForm) → word.now ≢ trace_keyword f) }
{
    match word {
        b"read" => Some(TraceForm::Read),
        b"write" => Some(TraceForm::Write),
        b"halted" => Some(TraceForm::Halted),
        b"waiting" => Some(TraceForm::Waiting),
        b"trapped" => Some(TraceForm::Trapped),
        b"running" => Some(TraceForm::Running),
        b"mem" => Some(TraceForm::Mem),
        _ => None,
    }
}

// The cause that has this word.
fn cause_named(word: &[u8]) -> Option<Cause>
    ensures some { IfSome result (λ cause. word.now ≡ cause_word cause) }
    ensures none { IfNone result ((cause : Cause) → word.now ≢ cause_word cause) }
{
    if word == b"illegal".as_slice() {
        return Some(Cause::Illegal);
    }
    if word == b"fetchoutside".as_slice() {
        return Some(Cause::FetchOutside);
    }
    if word == b"fetchmisaligned".as_slice() {
        return Some(Cause::FetchMisaligned);
    }
    if word == b"accessoutside".as_slice() {
        return Some(Cause::AccessOutside);
    }
    if word == b"deviceaccess".as_slice() {
        return Some(Cause::DeviceAccess);
    }
    if word == b"codewrite".as_slice() {
        return Some(Cause::CodeWrite);
    }
    None
}

// The line of this form that has these bytes after its first word.
fn parse_content(alloc: Global, form: TraceForm, tail: &[u8]) -> Result<Option<TraceLine>, NoMemory>
    ensures { IfOk result (IsTraceContent form tail.now) }
{
    match form {
        TraceForm::Read => Ok(read_line(tail)),
        TraceForm::Write => Ok(write_line(tail)),
        TraceForm::Halted => halted_line(alloc, tail),
        TraceForm::Waiting => Ok(waiting_line(tail)),
        TraceForm::Trapped => Ok(trapped_line(tail)),
        TraceForm::Running => Ok(running_line(tail)),
        TraceForm::Mem => mem_line(alloc, tail),
    }
}

// An address and a value.
fn parse_event(tail: &[u8]) -> Option<(u32, u32)>
    ensures some { IfSome result
        (λ p. (p.0 < 2 ^ 32) × (p.1 < 2 ^ 32) × (tail.now ≡ event_fields p.0 p.1)) }
    ensures none { IfNone result
        ((a v : ℕ) → a < 2 ^ 32 → v < 2 ^ 32 → tail.now ≢ event_fields a v) }
{
    let Some((address, rest)) = word_field(tail) else {
        return None;
    };
    let Some(value) = only_word(rest) else {
        return None;
    };
    Some((address, value))
}

fn read_line(tail: &[u8]) -> Option<TraceLine>
    ensures { IsTraceContent form.Read tail.now result }
{
    match parse_event(tail) {
        None => None,
        Some((address, value)) => Some(TraceLine::Read(address, value)),
    }
}

fn write_line(tail: &[u8]) -> Option<TraceLine>
    ensures { IsTraceContent form.Write tail.now result }
{
    match parse_event(tail) {
        None => None,
        Some((address, value)) => Some(TraceLine::Write(address, value)),
    }
}

fn halted_line(alloc: Global, tail: &[u8]) -> Result<Option<TraceLine>, NoMemory>
    ensures { IfOk result (IsTraceContent form.Halted tail.now) }
{
    match only_words(alloc, tail, 8)? {
        None => Ok(None),
        Some(words) => Ok(Some(TraceLine::Halted(words))),
    }
}

fn waiting_line(tail: &[u8]) -> Option<TraceLine>
    ensures { IsTraceContent form.Waiting tail.now result }
{
    match only_word(tail) {
        None => None,
        Some(word) => Some(TraceLine::Waiting(word)),
    }
}

fn trapped_line(tail: &[u8]) -> Option<TraceLine>
    ensures { IsTraceContent form.Trapped tail.now result }
{
    let Some(rest) = after_space(tail) else {
        return None;
    };
    let (word, more) = first_word(rest);
    let Some(cause) = cause_named(word) else {
        return None;
    };
    let Some(pc) = only_word(more) else {
        return None;
    };
    Some(TraceLine::Trapped(cause, pc))
}

fn running_line(tail: &[u8]) -> Option<TraceLine>
    ensures { IsTraceContent form.Running tail.now result }
{
    if tail.is_empty() {
        return Some(TraceLine::Running);
    }
    None
}

fn mem_line(alloc: Global, tail: &[u8]) -> Result<Option<TraceLine>, NoMemory>
    ensures { IfOk result (IsTraceContent form.Mem tail.now) }
{
    let Some(range) = parse_buffer(alloc, tail)? else {
        return Ok(None);
    };
    if is_range(&range) {
        return Ok(Some(TraceLine::Mem(range)));
    }
    Ok(None)
}
