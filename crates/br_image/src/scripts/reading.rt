// Reading scripts.

ghost use Rattle.std.specs.Prelude.{◌≡◌, ◌≤◌, ℕ, length, IfOk, IfErr, MatchResult};
ghost use Rattle.br_base.specs.declared.failure.OrMemory.TheVariants.{Memory};
ghost use Rattle.br_image.specs.declared.scripts.values.RunScript.{RunScript};
ghost use Rattle.br_image.specs.declared.scripts.values.InterpScript.{InterpScript};
ghost use Rattle.br_image.specs.declared.scripts.values.ScriptFault.{ScriptFault};
ghost use Rattle.br_base.specs.Faults.{IfFault};
ghost use Rattle.br_image.specs.Scripts.{run_parts, interp_parts, IsRunScript};
ghost use Rattle.br_image.specs.Scripts.{IsInterpScript, IsScriptFault};
ghost use Rattle.br_image.specs.Said.{HasSaid, AreSound};

use crate::parsing::cut;
use crate::scripts::order::{INTERP, Part, RUN, parts_after};
use crate::scripts::parsing::parse_script_line;
use crate::scripts::said::Said;
use crate::scripts::values::{InterpScript, RunScript, ScriptFault};
use br_base::OrMemory;
use std::alloc::Global;

// What the lines of a script of these parts say, and the place after the script.
fn read_lines(
    alloc: Global,
    text: &[u8],
    parts: &[Part],
) -> Result<(Said, usize), OrMemory<ScriptFault>>
    requires short { length text.now ≤ 1073741824 }
    requires sound { AreSound parts.now }
    ensures said { IfOk result (λ p. HasSaid parts.now text.now p.0 p.1) }
    ensures refused { IfErr result (λ e. IfFault e (IsScriptFault parts.now text.now)) }
{
    let mut said = Said::nothing(alloc);
    let mut left = parts;
    let mut at = 0;
    let mut number = 1u32;
    while !left.is_empty() {
        let Some((bytes, _)) = cut(&text[at..], b'\n') else {
            return Err(OrMemory::Fault(ScriptFault::ScriptEnds(number)));
        };
        let Some(line) = parse_script_line(alloc, bytes)? else {
            return Err(OrMemory::Fault(ScriptFault::BadScriptLine(number)));
        };
        let Some(next) = parts_after(left, line.form()) else {
            return Err(OrMemory::Fault(ScriptFault::BadScriptLine(number)));
        };
        if !said.allows(&line) {
            return Err(OrMemory::Fault(ScriptFault::BadScriptLine(number)));
        }
        said.add(line)?;
        left = next;
        at += bytes.len() + 1;
        number += 1;
    }
    Ok((said, at))
}

/// The run script that a text begins with, and the place of the first byte after it. The text has
/// at most 1,073,741,824 bytes, so that the numbers of its lines fit.
///
/// A run script has these lines in this order: `brrun 1`; `call NAME`; `args` and at most eight
/// words; any number of `mem W BYTES`; `junk W`; any number of `answer W D`; `limit D`; `end`.
/// Fields follow one space each, words are eight hexadecimal digits and bytes two each, in lower
/// case, and numbers are decimal without a zero before them. Ranges of memory lie in the data
/// region, each at or after the end of the one before. `answer W D` gives a word D times, at least
/// once, and all answers together are at most 1,000,000. So is the limit.
///
/// Every text that does not begin with a run script has one fault, and is refused for it. Lines
/// after `end` do not count.
pub fn read_run(alloc: Global, text: &[u8]) -> Result<(RunScript, usize), OrMemory<ScriptFault>>
    requires { length text.now ≤ 1073741824 }
    // What is read stands in the text, and what is refused has the fault.
    ensures script { IfOk result (λ p. IsRunScript text.now p.0 p.1) }
    ensures refused { IfErr result (λ e. IfFault e (IsScriptFault run_parts text.now)) }

    // Each script is read, and a text with a fault is refused for it, unless there is no memory.
    ensures each_script { (s : RunScript) (at : ℕ) → IsRunScript text.now s at →
        MatchResult result (λ p. (p.0 ≡ s) × (p.1 ≡ at)) (λ e. e ≡ Memory) }
    ensures each_fault { (f : ScriptFault) → IsScriptFault run_parts text.now f →
        MatchResult result (λ _. ⊥) (λ e. IfFault e (λ g. g ≡ f)) }
{
    run_of(alloc, text)
}

// The run script that a text begins with and the place after it, or the fault.
fn run_of(alloc: Global, text: &[u8]) -> Result<(RunScript, usize), OrMemory<ScriptFault>>
    requires { length text.now ≤ 1073741824 }
    ensures script { IfOk result (λ p. IsRunScript text.now p.0 p.1) }
    ensures refused { IfErr result (λ e. IfFault e (IsScriptFault run_parts text.now)) }
{
    let (said, at) = read_lines(alloc, text, &RUN)?;
    Ok((said.run_script(), at))
}

/// The interp script that a text begins with, and the place of the first byte after it. The text
/// has at most 1,073,741,824 bytes, so that the numbers of its lines fit.
///
/// An interp script has these lines in this order: `brinterp 1`; `call NAME`; `args` and at most
/// eight words; any number of `mem W BYTES`; any number of `choice W BYTES`, or `choice W` for no
/// bytes; any number of `answer W D`; `limit D`; `end`. All else is as in a run script.
pub fn read_interp(
    alloc: Global,
    text: &[u8],
) -> Result<(InterpScript, usize), OrMemory<ScriptFault>>
    requires { length text.now ≤ 1073741824 }
    ensures script { IfOk result (λ p. IsInterpScript text.now p.0 p.1) }
    ensures refused { IfErr result (λ e. IfFault e (IsScriptFault interp_parts text.now)) }
    ensures each_script { (s : InterpScript) (at : ℕ) → IsInterpScript text.now s at →
        MatchResult result (λ p. (p.0 ≡ s) × (p.1 ≡ at)) (λ e. e ≡ Memory) }
    ensures each_fault { (f : ScriptFault) → IsScriptFault interp_parts text.now f →
        MatchResult result (λ _. ⊥) (λ e. IfFault e (λ g. g ≡ f)) }
{
    interp_of(alloc, text)
}

// The interp script that a text begins with and the place after it, or the fault.
fn interp_of(alloc: Global, text: &[u8]) -> Result<(InterpScript, usize), OrMemory<ScriptFault>>
    requires { length text.now ≤ 1073741824 }
    ensures script { IfOk result (λ p. IsInterpScript text.now p.0 p.1) }
    ensures refused { IfErr result (λ e. IfFault e (IsScriptFault interp_parts text.now)) }
{
    let (said, at) = read_lines(alloc, text, &INTERP)?;
    Ok((said.interp_script(), at))
}
