// What can be wrong with a program whose shape is sound.

ghost use Rattle.std.specs.Prelude.{◌≡◌};

use thiserror::Error;

/// What is wrong with a program. The first five stand at the offset that they give, and of several
/// of them the one of the lowest offset is the fault, and at one offset the one that stands first
/// here. The others come only where none of the five does, in the order in which they stand here.
/// Functions are numbered from 0 in the order of the text.
#[derive(Clone, Copy, Debug, PartialEq, Eq, Error)]
pub enum NameFault {
    /// The name of a function that an earlier function has.
    #[error("a second function of this name, at offset {0}")]
    DuplicateFunction(u32),
    /// A call of a name that no function has.
    #[error("no function of this name, at offset {0}")]
    UnknownFunction(u32),
    /// A call or an interaction with another number of arguments than its callee or action has.
    #[error("a wrong number of arguments, at offset {0}")]
    WrongArguments(u32),
    /// A call or an interaction with another number of results than its callee or action has.
    #[error("a wrong number of results, at offset {0}")]
    WrongResults(u32),
    /// An action that is neither `MMIOREAD` nor `MMIOWRITE`.
    #[error("no action of this name, at offset {0}")]
    UnknownAction(u32),
    /// A program of this bulk, which is above 32,768. A bulk past 4,294,967,295 is given as that.
    #[error("a program of bulk {0}")]
    TooLarge(u32),
    /// The first function that has a path of calls to itself.
    #[error("function {0} has a path of calls to itself")]
    Recursion(u32),
    /// The first function that may need more than 1,048,576 bytes of stack, and its measure.
    #[error("function {0} may need {1} bytes of stack")]
    StackTooDeep(u32, u32),
}

impl NameFault {
    ghost use Rattle.br_measure.specs.Names.{place};
    ghost use Rattle.br_measure.specs.Lowest.{lower_of};

    // Faults of names in their order: by offset, and at one offset by variant.
    fn place(self) -> u64
        ensures { result ≡ place self }
    {
        match self {
            NameFault::DuplicateFunction(at) => 5 * u64::from(at),
            NameFault::UnknownFunction(at) => 5 * u64::from(at) + 1,
            NameFault::WrongArguments(at) => 5 * u64::from(at) + 2,
            NameFault::WrongResults(at) => 5 * u64::from(at) + 3,
            NameFault::UnknownAction(at) => 5 * u64::from(at) + 4,
            NameFault::TooLarge(_) | NameFault::Recursion(_) | NameFault::StackTooDeep(_, _) => 0,
        }
    }

    /// The lower of two faults of names.
    pub fn lower_of(self, other: NameFault) -> NameFault
        ensures { result ≡ lower_of self other }
    {
        if self.place() <= other.place() {
            self
        } else {
            other
        }
    }
}
