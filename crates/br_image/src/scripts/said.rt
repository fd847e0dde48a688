// What the lines of a script have said so far.

ghost use Rattle.std.specs.Prelude.{◌≡◌, ◌++◌, ◌↔◌, [], List, replicate, IsTrue, OnOk};
ghost use Rattle.br_image.specs.declared.scripts.lines.ScriptLine.{ScriptLine};
ghost use Rattle.br_image.specs.Scripts.{run_parts, interp_parts, Fits, SaysRun, SaysInterp};
ghost use Rattle.br_image.specs.Said.{Allows, Adds, FitsEnd, Says, SaidBy};

use crate::scripts::lines::ScriptLine;
use crate::scripts::values::{InterpScript, MOST_ANSWERS, RunScript};
use br_base::{Name, NoMemory};
use br_bytes::Choice;
use sqlite_items::Items;
use std::alloc::Global;

/// What lines say, where a later line of a form that stands once would take the place of an
/// earlier one.
#[derive(Debug, Drop)]
pub(crate) struct Said {
    call: Option<Name>,
    args: Option<Items<u32>>,
    mem: Items<Choice>,
    /// Where the last range of memory ends.
    mem_end: u32,
    junk: Option<u32>,
    choices: Items<Choice>,
    answers: Items<u32>,
    limit: Option<u32>,
}

impl Said {
    pub(crate) fn nothing(alloc: Global) -> Said
        ensures { Says [] result }
    {
        Said {
            call: None,
            args: None,
            mem: Items::new(alloc),
            mem_end: 0,
            junk: None,
            choices: Items::new(alloc),
            answers: Items::new(alloc),
            limit: None,
        }
    }

    /// Whether a line keeps the limits that go over several lines.
    pub(crate) fn allows(&self, line: &ScriptLine) -> bool
        ensures { IsTrue result ↔ Allows self.now line.now }
    {
        match line {
            ScriptLine::Mem(range) => self.mem_end <= range.addr,
            ScriptLine::Answer(_, times) => {
                let most = MOST_ANSWERS as usize;
                self.answers.len() <= most && *times as usize <= most - self.answers.len()
            }
            _ => true,
        }
    }

    /// Adds what a line says.
    pub(crate) fn add(&mut self, line: ScriptLine) -> Result<(), NoMemory>
        requires { FitsEnd line }
        ensures { OnOk result (Adds line self.old self.new) }
    {
        match line {
            ScriptLine::Run | ScriptLine::Interp | ScriptLine::End => {}
            ScriptLine::Call(name) => self.call = Some(name),
            ScriptLine::Args(words) => self.args = Some(words),
            ScriptLine::Mem(range) => {
                self.mem_end = range.addr + range.bytes.len() as u32;
                self.mem.push(range)?;
            }
            ScriptLine::Junk(word) => self.junk = Some(word),
            ScriptLine::Choose(buffer) => self.choices.push(buffer)?,
            ScriptLine::Answer(word, times) => push_times(&mut self.answers, word, times)?,
            ScriptLine::Limit(limit) => self.limit = Some(limit),
        }
        Ok(())
    }

    /// The run script that the lines of a whole one said.
    pub(crate) fn run_script(self) -> RunScript
        requires { SaidBy run_parts self }
        ensures { (lines : List ScriptLine) → Fits run_parts lines → Says lines self →
            SaysRun lines result }
    {
        let Said {
            call,
            args,
            mem,
            junk,
            answers,
            limit,
            ..
        } = self;
        RunScript {
            call: call.unwrap(),
            args: args.unwrap(),
            mem,
            junk: junk.unwrap(),
            answers,
            limit: limit.unwrap(),
        }
    }

    /// The interp script that the lines of a whole one said.
    pub(crate) fn interp_script(self) -> InterpScript
        requires { SaidBy interp_parts self }
        ensures { (lines : List ScriptLine) → Fits interp_parts lines → Says lines self →
            SaysInterp lines result }
    {
        let Said {
            call,
            args,
            mem,
            choices,
            answers,
            limit,
            ..
        } = self;
        InterpScript {
            call: call.unwrap(),
            args: args.unwrap(),
            mem,
            choices,
            answers,
            limit: limit.unwrap(),
        }
    }
}

// Adds a word so many times.
fn push_times(answers: &mut Items<u32>, word: u32, times: u32) -> Result<(), NoMemory>
    ensures { OnOk result (answers.new ≡ answers.old ++ replicate times word) }
{
    for _ in 0..times {
        answers.push(word)?;
    }
    Ok(())
}
