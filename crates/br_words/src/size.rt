// How many bytes an access to memory moves.

ghost use Rattle.std.specs.Prelude.{◌≡◌};
ghost use Rattle.br_words.specs.Size.{size_of};

/// How many bytes an access to memory moves.
#[derive(Clone, Copy, Debug, PartialEq, Eq)]
pub enum Size {
    /// One byte.
    One,
    /// Two bytes.
    Two,
    /// Four bytes.
    Four,
}

impl Size {
    /// The number of bytes: 1, 2 or 4.
    pub fn bytes(self) -> u32
        ensures { result ≡ size_of self }
    {
        match self {
            Size::One => 1,
            Size::Two => 2,
            Size::Four => 4,
        }
    }
}
