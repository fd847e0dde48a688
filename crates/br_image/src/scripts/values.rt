// What scripts say.

use br_base::Name;
use br_bytes::Choice;
use sqlite_items::Items;
use thiserror::Error;

/// The most answers of a script in all.
pub(crate) const MOST_ANSWERS: u32 = 1_000_000;

/// The largest limit of a script.
pub(crate) const MOST_LIMIT: u32 = 1_000_000;

/// What a run of an image starts with.
#[derive(Debug, Drop)]
pub struct RunScript {
    /// The name of the function that is called.
    pub call: Name,
    /// Its arguments, at most eight.
    pub args: Items<u32>,
    /// Ranges of bytes in the data region, upward and apart.
    pub mem: Items<Choice>,
    /// What registers and memory hold at the start where nothing else is said.
    pub junk: u32,
    /// The words that devices answer, in order, at most 1,000,000.
    pub answers: Items<u32>,
    /// The most steps, at most 1,000,000.
    pub limit: u32,
}

/// What a run of a source text starts with.
#[derive(Debug, Drop)]
pub struct InterpScript {
    /// The name of the function that is called.
    pub call: Name,
    /// Its arguments, at most eight.
    pub args: Items<u32>,
    /// Ranges of bytes in the data region, upward and apart.
    pub mem: Items<Choice>,
    /// The buffers that `stackalloc` gets, in order.
    pub choices: Items<Choice>,
    /// The words that devices answer, in order, at most 1,000,000.
    pub answers: Items<u32>,
    /// The fuel, at most 1,000,000.
    pub limit: u32,
}

/// Why bytes do not begin with a script, and the line where it shows. Lines count from 1, and the
/// first line with a fault is told.
#[derive(Clone, Copy, Debug, PartialEq, Eq, Error)]
pub enum ScriptFault {
    /// The line is not of a form that may stand there, its numbers included.
    #[error("line {0} may not stand there")]
    BadScriptLine(u32),
    /// The bytes end before this line has its line feed.
    #[error("the script ends in line {0}")]
    ScriptEnds(u32),
}
