// Why a text is refused.

use br_measure::NameFault;
use br_sexpr::TextFault;
use br_syntax::ShapeFault;
use thiserror::Error;

/// Why a text is refused. The first that applies, in the order of the variants, is the one.
#[derive(Debug, Drop, Error)]
pub enum Refusal {
    /// The text has more than 1,048,576 bytes.
    #[error("the text has more than 1,048,576 bytes")]
    InputTooLong,
    /// It is no sequence of names, numbers and lists.
    #[error(transparent)]
    Text(TextFault),
    /// Its trees are not all functions.
    #[error(transparent)]
    Shape(ShapeFault),
    /// A name is at fault, or the program is too large, calls itself or needs too much stack.
    #[error(transparent)]
    Names(NameFault),
}
