// How a run of the program ended.

ghost use Rattle.std.specs.Prelude.{◌≡◌};
ghost use Rattle.br_base.specs.Status.{code_of};

/// How a run of the program ended.
#[derive(Clone, Copy, Debug, PartialEq, Eq)]
pub enum Status {
    /// The whole answer was written.
    Done,
    /// What was read is refused.
    Refused,
    /// The words of the command line are no command.
    Usage,
    /// The input failed.
    ReadFault,
    /// An output failed.
    WriteFault,
    /// There was no memory.
    NoMemory,
}

impl Status {
    /// The number that the program exits with: 0 to 5, in the order of the variants.
    pub fn code(&self) -> u8
        ensures { result ≡ code_of self.now }
    {
        match self {
            Status::Done => 0,
            Status::Refused => 1,
            Status::Usage => 2,
            Status::ReadFault => 3,
            Status::WriteFault => 4,
            Status::NoMemory => 5,
        }
    }
}
