// Where what stands in the machine's address space.

ghost use Rattle.std.specs.Prelude.{◌≡◌};
ghost use Rattle.br_words.specs.Layout as layout;

/// The low end of the data region.
pub const DATA_BASE: u32 = 0x80100000;

/// The low end of the stack region, where the data region ends.
pub const STACK_BASE: u32 = 0x80200000;

/// The end of the stack region, which is used downward from here.
pub const STACK_END: u32 = 0x80300000;

/// Where the code region stands, and how large it is. The data and the stack region are the same in
/// both.
#[derive(Clone, Copy, Debug, PartialEq, Eq)]
pub enum Layout {
    /// The code region is 0x80000000 up to 0x80100000, below the data region.
    One,
    /// The code region is 0x80300000 up to 0x80700000, above the stack region.
    Two,
}

impl Layout {
    /// The low end of the code region.
    pub fn code_base(self) -> u32
        ensures { result ≡ layout.code_base self }
    {
        match self {
            Layout::One => 0x80000000,
            Layout::Two => 0x80300000,
        }
    }

    /// The low end of RAM.
    pub fn ram_base(self) -> u32
        ensures { result ≡ layout.ram_base self }
    {
        match self {
            Layout::One => 0x80000000,
            Layout::Two => DATA_BASE,
        }
    }

    /// The high end of RAM.
    pub fn ram_end(self) -> u32
        ensures { result ≡ layout.ram_end self }
    {
        match self {
            Layout::One => STACK_END,
            Layout::Two => 0x80700000,
        }
    }

    /// The most words of code: those that fill the code region.
    pub fn most_words(self) -> u32
        ensures { result ≡ layout.most_words self }
    {
        match self {
            Layout::One => 262144,
            Layout::Two => 1048576,
        }
    }
}
