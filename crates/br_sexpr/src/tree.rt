// What a source text is read as.

use br_base::Name;
use sqlite_items::Items;
use thiserror::Error;

/// A name, a number or a list of trees. `at` is the offset of its first byte in the text.
#[derive(Debug, Drop)]
pub enum Tree {
    Name { at: u32, text: Name },
    Number { at: u32, value: u32 },
    List { at: u32, items: Items<Tree> },
}

/// What is wrong with a text, and the offset of the byte where it shows.
#[derive(Clone, Copy, Debug, PartialEq, Eq, Error)]
pub enum TextFault {
    /// A byte outside comments that is no blank and stands in no token.
    #[error("a byte that begins no token, at offset {0}")]
    BadByte(u32),
    /// A run that begins with a digit and is no number.
    #[error("no number below 2^32, at offset {0}")]
    BadNumber(u32),
    /// A `)` with no partner before it.
    #[error("a closing parenthesis with no partner, at offset {0}")]
    ExtraClose(u32),
    /// The first `(` with no partner, where the text has no other fault.
    #[error("a parenthesis that is never closed, at offset {0}")]
    Unclosed(u32),
    /// A `(` inside 256 others.
    #[error("a parenthesis inside 256 others, at offset {0}")]
    TooDeep(u32),
}
