// The lines that scripts are made of.

ghost use Rattle.std.specs.Prelude.{◌≡◌};
ghost use Rattle.br_image.specs.ScriptLines.{form_of};

use br_base::Name;
use br_bytes::Choice;
use sqlite_items::Items;

/// The forms of a script's lines.
#[derive(Clone, Copy, Debug, PartialEq, Eq)]
pub enum Form {
    /// `brrun 1`.
    Run,
    /// `brinterp 1`.
    Interp,
    /// `call NAME`.
    Call,
    /// `args` and at most eight words.
    Args,
    /// `mem W BYTES`.
    Mem,
    /// `junk W`.
    Junk,
    /// `choice W BYTES`, or `choice W` for no bytes.
    Choose,
    /// `answer W D`.
    Answer,
    /// `limit D`.
    Limit,
    /// `end`.
    End,
}

/// A line of a script.
#[derive(Debug, Drop)]
pub enum ScriptLine {
    Run,
    Interp,
    /// The name of the function that is called.
    Call(Name),
    /// The arguments of the call.
    Args(Items<u32>),
    /// Bytes of memory, and where they begin.
    Mem(Choice),
    /// The word that registers and memory hold at the start where nothing else is said.
    Junk(u32),
    /// The address of a buffer and its bytes.
    Choose(Choice),
    /// A word that a device answers, and how often.
    Answer(u32, u32),
    /// The most steps, or the fuel.
    Limit(u32),
    End,
}

impl ScriptLine {
    pub(crate) fn form(&self) -> Form
        ensures { result ≡ form_of self.now }
    {
        match self {
            ScriptLine::Run => Form::Run,
            ScriptLine::Interp => Form::Interp,
            ScriptLine::Call(_) => Form::Call,
            ScriptLine::Args(_) => Form::Args,
            ScriptLine::Mem(_) => Form::Mem,
            ScriptLine::Junk(_) => Form::Junk,
            ScriptLine::Choose(_) => Form::Choose,
            ScriptLine::Answer(_, _) => Form::Answer,
            ScriptLine::Limit(_) => Form::Limit,
            ScriptLine::End => Form::End,
        }
    }
}
