// Why there is no text.

ghost use Rattle.std.specs.Prelude.{◌≡◌};

use br_base::{NoMemory, OrMemory, ReadEnd};
use br_compile::Refusal;
use br_image::{ImageFault, ScriptFault, TraceFault};
use br_measure::NameFault;
use br_sexpr::TextFault;
use br_syntax::ShapeFault;

/// Why what was read is refused.
#[derive(Debug, Drop)]
pub enum Reason {
    /// The input has more bytes than the command reads.
    TooLong,
    /// It is a source text that is refused.
    Source(Refusal),
    /// It is the text of no image.
    Image(ImageFault),
    /// It does not begin with a script.
    Script(ScriptFault),
    /// The source text after a script has more than 1,048,576 bytes.
    TextTooLong,
    /// No function has the name that a script calls.
    UnknownEntry,
    /// The function that a script calls takes this number of arguments, and the script has another.
    WrongCount(u32),
    /// It is no trace text.
    Trace(TraceFault),
}

/// Why there is no text.
#[derive(Debug, Drop)]
pub(crate) enum Trouble {
    /// There was no memory.
    Memory,
    /// The input failed.
    ReadFault,
    /// What was read is refused.
    Refused(Reason),
}

impl From<NoMemory> for Trouble {
    ghost use Rattle.br_top.specs.declared.trouble.Trouble.TheVariants.{Memory};

    ghost from_gives = { λ _ trouble. trouble ≡ Memory };

    fn from(_cause: NoMemory) -> Trouble {
        Trouble::Memory
    }
}

impl From<ReadEnd> for Trouble {
    ghost use Rattle.br_top.specs.Troubles.{trouble_of_end};

    ghost from_gives = { λ end trouble. trouble ≡ trouble_of_end end };

    fn from(end: ReadEnd) -> Trouble {
        match end {
            ReadEnd::Memory => Trouble::Memory,
            ReadEnd::Failed => Trouble::ReadFault,
            ReadEnd::TooLong => Trouble::Refused(Reason::TooLong),
        }
    }
}

impl From<OrMemory<Refusal>> for Trouble {
    ghost use Rattle.br_top.specs.Troubles.{trouble_of, source_reason};

    ghost from_gives = { λ cause trouble. trouble ≡ trouble_of source_reason cause };

    fn from(cause: OrMemory<Refusal>) -> Trouble {
        match cause {
            OrMemory::Memory => Trouble::Memory,
            OrMemory::Fault(refusal) => Trouble::Refused(Reason::Source(refusal)),
        }
    }
}

impl From<OrMemory<TextFault>> for Trouble {
    ghost use Rattle.br_top.specs.Troubles.{trouble_of, text_reason};

    ghost from_gives = { λ cause trouble. trouble ≡ trouble_of text_reason cause };

    fn from(cause: OrMemory<TextFault>) -> Trouble {
        match cause {
            OrMemory::Memory => Trouble::Memory,
            OrMemory::Fault(fault) => Trouble::Refused(Reason::Source(Refusal::Text(fault))),
        }
    }
}

impl From<OrMemory<ShapeFault>> for Trouble {
    ghost use Rattle.br_top.specs.Troubles.{trouble_of, shape_reason};

    ghost from_gives = { λ cause trouble. trouble ≡ trouble_of shape_reason cause };

    fn from(cause: OrMemory<ShapeFault>) -> Trouble {
        match cause {
            OrMemory::Memory => Trouble::Memory,
            OrMemory::Fault(fault) => Trouble::Refused(Reason::Source(Refusal::Shape(fault))),
        }
    }
}

impl From<OrMemory<ImageFault>> for Trouble {
    ghost use Rattle.br_top.specs.Troubles.{trouble_of, image_reason};

    ghost from_gives = { λ cause trouble. trouble ≡ trouble_of image_reason cause };

    fn from(cause: OrMemory<ImageFault>) -> Trouble {
        match cause {
            OrMemory::Memory => Trouble::Memory,
            OrMemory::Fault(fault) => Trouble::Refused(Reason::Image(fault)),
        }
    }
}

impl From<OrMemory<NameFault>> for Trouble {
    ghost use Rattle.br_top.specs.Troubles.{trouble_of, name_reason};

    ghost from_gives = { λ cause trouble. trouble ≡ trouble_of name_reason cause };

    fn from(cause: OrMemory<NameFault>) -> Trouble {
        match cause {
            OrMemory::Memory => Trouble::Memory,
            OrMemory::Fault(fault) => Trouble::Refused(Reason::Source(Refusal::Names(fault))),
        }
    }
}

impl From<OrMemory<ScriptFault>> for Trouble {
    ghost use Rattle.br_top.specs.Troubles.{trouble_of, script_reason};

    ghost from_gives = { λ cause trouble. trouble ≡ trouble_of script_reason cause };

    fn from(cause: OrMemory<ScriptFault>) -> Trouble {
        match cause {
            OrMemory::Memory => Trouble::Memory,
            OrMemory::Fault(fault) => Trouble::Refused(Reason::Script(fault)),
        }
    }
}

impl From<OrMemory<TraceFault>> for Trouble {
    ghost use Rattle.br_top.specs.Troubles.{trouble_of, trace_reason};

    ghost from_gives = { λ cause trouble. trouble ≡ trouble_of trace_reason cause };

    fn from(cause: OrMemory<TraceFault>) -> Trouble {
        match cause {
            OrMemory::Memory => Trouble::Memory,
            OrMemory::Fault(fault) => Trouble::Refused(Reason::Trace(fault)),
        }
    }
}
