// The lines that trace texts are made of.

ghost use Rattle.std.specs.Prelude.{◌≡◌, IfSome, IfNone};
ghost use Rattle.br_image.specs.declared.traces.lines.Stage.{Stage};
ghost use Rattle.br_image.specs.Traces.{Steps};

use br_bytes::Choice;
use sqlite_items::Items;

/// The forms of a trace text's lines.
#[derive(Clone, Copy, Debug, PartialEq, Eq)]
pub enum TraceForm {
    /// `read W W`.
    Read,
    /// `write W W`.
    Write,
    /// `halted` and at most eight words.
    Halted,
    /// `waiting W`.
    Waiting,
    /// `trapped KIND W`.
    Trapped,
    /// `running`.
    Running,
    /// `mem W BYTES`.
    Mem,
}

/// Why a run was trapped.
#[derive(Clone, Copy, Debug, PartialEq, Eq)]
pub enum Cause {
    /// `illegal`.
    Illegal,
    /// `fetchoutside`.
    FetchOutside,
    /// `fetchmisaligned`.
    FetchMisaligned,
    /// `accessoutside`.
    AccessOutside,
    /// `deviceaccess`.
    DeviceAccess,
    /// `codewrite`.
    CodeWrite,
}

/// A line of a trace text.
#[derive(Debug, Drop)]
pub enum TraceLine {
    /// The address that was read, and the value.
    Read(u32, u32),
    /// The address that was written, and the value.
    Write(u32, u32),
    /// The results.
    Halted(Items<u32>),
    /// The address whose answer is missing.
    Waiting(u32),
    /// The cause, and the address of the instruction.
    Trapped(Cause, u32),
    Running,
    /// Bytes of memory, and where they begin.
    Mem(Choice),
}

/// Which lines may come.
#[derive(Clone, Copy, Debug, PartialEq, Eq)]
pub enum Stage {
    /// Events, and a line that ends them.
    Events,
    /// Memory alone, after `halted`.
    Memory,
    /// No line, after another end.
    Over,
}

/// The stage after a line. None where the line may not stand at this stage.
pub(crate) fn stage_after(stage: Stage, line: &TraceLine) -> Option<Stage>
    ensures some { IfSome result (λ next. Steps stage line.now next) }
    ensures none { IfNone result ((next : Stage) → ¬ Steps stage line.now next) }
{
    match (stage, line) {
        (Stage::Events, TraceLine::Read(_, _)) => Some(Stage::Events),
        (Stage::Events, TraceLine::Write(_, _)) => Some(Stage::Events),
        (Stage::Events, TraceLine::Halted(_)) => Some(Stage::Memory),
        (Stage::Events, TraceLine::Waiting(_)) => Some(Stage::Over),
        (Stage::Events, TraceLine::Trapped(_, _)) => Some(Stage::Over),
        (Stage::Events, TraceLine::Running) => Some(Stage::Over),
        (Stage::Memory, TraceLine::Mem(_)) => Some(Stage::Memory),
        _ => None,
    }
}
