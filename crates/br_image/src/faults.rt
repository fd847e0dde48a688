// Why a text is the text of no image.

use thiserror::Error;

/// Why a text is the text of no image, and the line where it shows. Lines count from 1, and the
/// first line with one of the faults `BadLine`, `BadOrder` and `Truncated` is told.
#[derive(Clone, Copy, Debug, PartialEq, Eq, Error)]
pub enum ImageFault {
    /// The line is of none of the five forms, its name and its numbers included.
    #[error("line {0} is of no form")]
    BadLine(u32),
    /// The line may not stand there, or an earlier entry has its name, or it follows `end`.
    #[error("line {0} may not stand there")]
    BadOrder(u32),
    /// The first entry whose offset is no multiple of 4 or lies past the code. It comes only
    /// where no line has another fault.
    #[error("the offset in line {0} is not in the code")]
    BadOffset(u32),
    /// The text ends before this line has its line feed, and before a line `end`.
    #[error("the text ends in line {0}")]
    Truncated(u32),
}
