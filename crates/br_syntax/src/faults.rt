// What can be wrong with the shape of a tree.

ghost use Rattle.std.specs.Prelude.{◌≡◌};

use thiserror::Error;

/// What is wrong with the shape of a text, and the offset where it shows. Of several the one of
/// the lowest offset is the fault, and at one offset the one that stands first here.
#[derive(Clone, Copy, Debug, PartialEq, Eq, Error)]
pub enum ShapeFault {
    /// A tree that is not of the kind that its place asks for.
    #[error("no such form, at offset {0}")]
    BadForm(u32),
    /// A buffer's size that is no multiple of 4 or is above 65,536.
    #[error("a buffer of this size, at offset {0}")]
    BadSize(u32),
    /// A number above 255 among the bytes of a table.
    #[error("a number above 255 in a table, at offset {0}")]
    BadByteValue(u32),
    /// The ninth name of a list of names, or the ninth argument of a call or an interaction.
    #[error("a ninth name or argument, at offset {0}")]
    TooMany(u32),
    /// A name that an earlier item of the same list of names has.
    #[error("a name again in one list, at offset {0}")]
    Repeated(u32),
}

impl ShapeFault {
    ghost use Rattle.br_syntax.specs.FaultOrder.{place, lower};

    // Faults in their order: by offset, and at one offset by variant.
    fn place(self) -> u64
        ensures { result ≡ place self }
    {
        match self {
            ShapeFault::BadForm(at) => 5 * u64::from(at),
            ShapeFault::BadSize(at) => 5 * u64::from(at) + 1,
            ShapeFault::BadByteValue(at) => 5 * u64::from(at) + 2,
            ShapeFault::TooMany(at) => 5 * u64::from(at) + 3,
            ShapeFault::Repeated(at) => 5 * u64::from(at) + 4,
        }
    }

    /// The lower of two faults.
    pub fn lower(self, other: ShapeFault) -> ShapeFault
        ensures { result ≡ lower self other }
    {
        if self.place() <= other.place() {
            self
        } else {
            other
        }
    }
}
