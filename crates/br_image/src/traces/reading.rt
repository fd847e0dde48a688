// Reading trace texts.

ghost use Rattle.std.specs.Prelude.{◌≡◌, ◌≤◌, List, length, IfOk, IfErr, MatchResult};
ghost use Rattle.br_base.specs.declared.failure.OrMemory.TheVariants.{Memory};
ghost use Rattle.br_bytes.specs.declared.run.Event.{Event};
ghost use Rattle.br_image.specs.declared.traces.reading.TraceFault.{TraceFault};
ghost use Rattle.br_base.specs.Faults.{IfFault};
ghost use Rattle.br_image.specs.Traces.{IsTrace, IsTraceFault};

use crate::parsing::cut;
use crate::traces::lines::{Stage, stage_after};
use crate::traces::parsing::parse_trace_line;
use crate::traces::shown::Shown;
use br_base::OrMemory;
use br_bytes::Event;
use sqlite_items::Items;
use std::alloc::Global;
use thiserror::Error;

/// Why bytes are no trace text, and the line where it shows. Lines count from 1.
#[derive(Clone, Copy, Debug, PartialEq, Eq, Error)]
pub enum TraceFault {
    /// The first line that may not stand there, its numbers included, or has no line feed.
    #[error("line {0} may not stand there")]
    BadTraceLine(u32),
}

/// The events of a trace text, which has at most 1,073,741,824 bytes, so that the numbers of its
/// lines fit.
///
/// A trace text has any number of lines `read W W` and `write W W`, address and value. One line may
/// follow that ends them: `halted` and at most eight words, `waiting W`, `trapped KIND W` or
/// `running`, with the kind `illegal`, `fetchoutside`, `fetchmisaligned`, `accessoutside`,
/// `deviceaccess` or `codewrite`. After `halted` any number of lines `mem W BYTES` may follow,
/// whose ranges lie in the data region, each at or after the end of the one before.
///
/// Every text that is no trace text has one fault, and is refused for it.
pub fn read_trace(alloc: Global, text: &[u8]) -> Result<Items<Event>, OrMemory<TraceFault>>
    requires { length text.now ≤ 1073741824 }
    // What is read stands in the text, and what is refused has the fault.
    ensures trace { IfOk result (λ events. IsTrace text.now events) }
    ensures refused { IfErr result (λ e. IfFault e (IsTraceFault text.now)) }

    // Each trace text is read, and a text with a fault is
    // refused for it, unless there is no memory.
    ensures each_trace { (events : List Event) → IsTrace text.now events →
        MatchResult result (λ read. read ≡ events) (λ e. e ≡ Memory) }
    ensures each_fault { (f : TraceFault) → IsTraceFault text.now f →
        MatchResult result (λ _. ⊥) (λ e. IfFault e (λ g. g ≡ f)) }
{
    trace_of(alloc, text)
}

// The events of a trace text, or the fault.
fn trace_of(alloc: Global, text: &[u8]) -> Result<Items<Event>, OrMemory<TraceFault>>
    requires { length text.now ≤ 1073741824 }
    ensures trace { IfOk result (λ events. IsTrace text.now events) }
    ensures refused { IfErr result (λ e. IfFault e (IsTraceFault text.now)) }
{
    let mut shown = Shown::nothing(alloc);
    let mut stage = Stage::Events;
    let mut at = 0;
    let mut number = 1u32;
    while at < text.len() {
        let Some((bytes, _)) = cut(&text[at..], b'\n') else {
            return Err(OrMemory::Fault(TraceFault::BadTraceLine(number)));
        };
        let Some(line) = parse_trace_line(alloc, bytes)? else {
            return Err(OrMemory::Fault(TraceFault::BadTraceLine(number)));
        };
        let Some(next) = stage_after(stage, &line) else {
            return Err(OrMemory::Fault(TraceFault::BadTraceLine(number)));
        };
        if !shown.allows(&line) {
            return Err(OrMemory::Fault(TraceFault::BadTraceLine(number)));
        }
        shown.add(line)?;
        stage = next;
        at += bytes.len() + 1;
        number += 1;
    }
    let Shown { events, .. } = shown;
    Ok(events)
}
