// The lines that an image's text is made of.

use crate::images::Entry;
use br_words::Layout;

/// A line of an image's text.
#[derive(Debug, Drop)]
pub enum Line {
    /// `brimage 1` for layout One, `brimage 2` for layout Two.
    Header(Layout),
    /// `entry NAME ARGS RESULTS OFFSET NEED`.
    Function(Entry),
    /// `code N`.
    Count(u32),
    /// Eight hexadecimal digits.
    Word(u32),
    /// `end`.
    End,
}
