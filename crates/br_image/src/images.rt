// What the compiler makes of a program.

ghost use Rattle.br_image.specs.Limits.{InLimits};

use br_base::Name;
use br_words::Layout;
use sqlite_items::Items;

/// Where a function of a program begins in the code, and what a caller has to know of it.
#[derive(Debug, Drop)]
pub struct Entry {
    /// The function's name.
    pub name: Name,
    /// How many arguments it takes.
    pub args: u32,
    /// How many results it gives.
    pub results: u32,
    /// The first byte of its code, counted from the first byte of all code.
    pub offset: u32,
    /// The bytes of stack that a call of it may use.
    pub need: u32,
}

/// A compiled program: where its code stands, its functions in the order of the text, and the words
/// of its code.
#[derive(Debug, Drop)]
pub struct Image {
    pub layout: Layout,
    pub entries: Items<Entry>,
    pub code: Items<u32>,
    pub ghost in_limits: { InLimits layout entries code },
}
