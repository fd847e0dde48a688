// Reading one line of a script.

ghost use Rattle.std.specs.Prelude.{◌≡◌, ◌≢◌, ◌<◌, ◌≤◌, ◌^◌, ◌++◌, ◌∷◌, [], ℕ};
ghost use Rattle.std.specs.Prelude.{List, IfSome, IfNone, IfOk, IsTrue, ◌↔◌};
ghost use Rattle.br_bytes.specs.declared.run.Choice.{Choice};
ghost use Rattle.br_image.specs.declared.scripts.lines.Form.{Form};
ghost use Rattle.br_image.specs.declared.scripts.lines.Form.TheVariants as form;
ghost use Rattle.br_image.specs.ScriptLines.{keyword, range_fields, IsBuffer, IsRange};
ghost use Rattle.br_image.specs.ScriptReading.{IsContent, IsScriptLineOf};

use crate::scripts::fields::{
    after_space, first_word, only_bytes, only_number, only_word, only_words, word_field,
};
use crate::scripts::lines::{Form, ScriptLine};
use crate::scripts::values::{MOST_ANSWERS, MOST_LIMIT};
use br_base::{Name, NoMemory};
use br_bytes::Choice;
use br_words::{DATA_BASE, STACK_BASE};
use std::alloc::Global;

/// The line that these bytes are. None where they are of none of the forms.
pub(crate) fn parse_script_line(alloc: Global, bytes: &[u8]) -> Result<Option<ScriptLine>, NoMemory>
    ensures { IfOk result (IsScriptLineOf bytes.now) }
{
    let (word, tail) = first_word(bytes);
    match form_named(word) {
        None => Ok(None),
        Some(form) => parse_content(alloc, form, tail),
    }
}

// The form whose lines begin with this word.
fn form_named(word: &[u8]) -> Option<Form>
    ensures some { IfSome result (λ f. word.now ≡ keyword f) }
    ensures none { IfNone result ((f : Form) → word.now ≢ keyword f) }
{
    match word {
        b"brrun" => Some(Form::Run),
        b"brinterp" => Some(Form::Interp),
        b"call" => Some(Form::Call),
        b"args" => Some(Form::Args),
        b"mem" => Some(Form::Mem),
        b"junk" => Some(Form::Junk),
        b"choice" => Some(Form::Choose),
        b"answer" => Some(Form::Answer),
        b"limit" => Some(Form::Limit),
        b"end" => Some(Form::End),
        _ => None,
    }
}

// The line of this form that has these bytes after its first word.
fn parse_content(alloc: Global, form: Form, tail: &[u8]) -> Result<Option<ScriptLine>, NoMemory>
    ensures { IfOk result (IsContent form tail.now) }
{
    match form {
        Form::Run => Ok(run_line(tail)),
        Form::Interp => Ok(interp_line(tail)),
        Form::Call => call_line(alloc, tail),
        Form::Args => args_line(alloc, tail),
        Form::Mem => mem_line(alloc, tail),
        Form::Junk => Ok(junk_line(tail)),
        Form::Choose => choice_line(alloc, tail),
        Form::Answer => Ok(answer_line(tail)),
        Form::Limit => Ok(limit_line(tail)),
        Form::End => Ok(end_line(tail)),
    }
}

fn run_line(tail: &[u8]) -> Option<ScriptLine>
    ensures { IsContent form.Run tail.now result }
{
    if tail == b" 1".as_slice() {
        return Some(ScriptLine::Run);
    }
    None
}

fn interp_line(tail: &[u8]) -> Option<ScriptLine>
    ensures { IsContent form.Interp tail.now result }
{
    if tail == b" 1".as_slice() {
        return Some(ScriptLine::Interp);
    }
    None
}

fn call_line(alloc: Global, tail: &[u8]) -> Result<Option<ScriptLine>, NoMemory>
    ensures { IfOk result (IsContent form.Call tail.now) }
{
    let Some(name) = after_space(tail) else {
        return Ok(None);
    };
    match Name::from_bytes(Vec::from_slice(alloc, name)?) {
        None => Ok(None),
        Some(name) => Ok(Some(ScriptLine::Call(name))),
    }
}

fn args_line(alloc: Global, tail: &[u8]) -> Result<Option<ScriptLine>, NoMemory>
    ensures { IfOk result (IsContent form.Args tail.now) }
{
    match only_words(alloc, tail, 8)? {
        None => Ok(None),
        Some(words) => Ok(Some(ScriptLine::Args(words))),
    }
}

fn mem_line(alloc: Global, tail: &[u8]) -> Result<Option<ScriptLine>, NoMemory>
    ensures { IfOk result (IsContent form.Mem tail.now) }
{
    let Some(range) = parse_buffer(alloc, tail)? else {
        return Ok(None);
    };
    if is_range(&range) {
        return Ok(Some(ScriptLine::Mem(range)));
    }
    Ok(None)
}

fn junk_line(tail: &[u8]) -> Option<ScriptLine>
    ensures { IsContent form.Junk tail.now result }
{
    match only_word(tail) {
        None => None,
        Some(word) => Some(ScriptLine::Junk(word)),
    }
}

fn choice_line(alloc: Global, tail: &[u8]) -> Result<Option<ScriptLine>, NoMemory>
    ensures { IfOk result (IsContent form.Choose tail.now) }
{
    match parse_buffer(alloc, tail)? {
        None => Ok(None),
        Some(buffer) => Ok(Some(ScriptLine::Choose(buffer))),
    }
}

fn answer_line(tail: &[u8]) -> Option<ScriptLine>
    ensures { IsContent form.Answer tail.now result }
{
    let (word, rest) = word_field(tail)?;
    let times = only_number(rest, MOST_ANSWERS)?;
    if times == 0 {
        return None;
    }
    Some(ScriptLine::Answer(word, times))
}

fn limit_line(tail: &[u8]) -> Option<ScriptLine>
    ensures { IsContent form.Limit tail.now result }
{
    match only_number(tail, MOST_LIMIT) {
        None => None,
        Some(limit) => Some(ScriptLine::Limit(limit)),
    }
}

fn end_line(tail: &[u8]) -> Option<ScriptLine>
    ensures { IsContent form.End tail.now result }
{
    if tail.is_empty() {
        return Some(ScriptLine::End);
    }
    None
}

/// An address and the bytes from there on.
pub(crate) fn parse_buffer(alloc: Global, tail: &[u8]) -> Result<Option<Choice>, NoMemory>
    ensures some { IfOk result (λ o. IfSome o (λ c. IsBuffer c × (tail.now ≡ range_fields c))) }
    ensures none { IfOk result
        (λ o. IfNone o ((c : Choice) → IsBuffer c → tail.now ≢ range_fields c)) }
{
    let Some((addr, rest)) = word_field(tail) else {
        return Ok(None);
    };
    match only_bytes(alloc, rest)? {
        None => Ok(None),
        Some(bytes) => Ok(Some(Choice { addr, bytes })),
    }
}

/// Whether a buffer has bytes and lies in the data region.
pub(crate) fn is_range(c: &Choice) -> bool
    requires { IsBuffer c.now }
    ensures { IsTrue result ↔ IsRange c.now }
{
    !c.bytes.is_empty()
        && DATA_BASE <= c.addr
        && c.addr <= STACK_BASE
        && c.bytes.len() <= (STACK_BASE - c.addr) as usize
}
