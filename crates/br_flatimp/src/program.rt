// Programs of flat statements.

use br_base::Name;
use br_words::{BinOp, Size};
use sqlite_items::Items;

/// The second operand of an operation.
#[derive(Clone, Copy, Debug, PartialEq, Eq)]
pub enum Operand {
    /// The word of a name.
    Name(u32),
    /// A constant, which counts modulo 2^32. Which constants an operation may have is as in RV32I
    /// (RISC-V unprivileged manual, integer register-immediate instructions).
    Const(i32),
}

/// How two words are compared. `Lts` and `Ges` read them as signed numbers.
#[derive(Clone, Copy, Debug, PartialEq, Eq)]
pub enum Rel {
    /// Equal.
    Eq,
    /// Not equal.
    Ne,
    /// Less, as signed numbers.
    Lts,
    /// Greater or equal, as signed numbers.
    Ges,
    /// Less.
    Ltu,
    /// Greater or equal.
    Geu,
}

/// A test.
#[derive(Clone, Copy, Debug, PartialEq, Eq)]
pub enum Cond {
    /// The word of a name is not 0.
    NonZero(u32),
    /// The words of two names compare so.
    Compare(Rel, u32, u32),
}

/// A statement. Names are numbers below the count of its function's names, and a name that is
/// written stands first. A byte offset is from -2048 to 2047 and counts modulo 2^32.
#[derive(Debug, Drop)]
pub enum Stmt {
    /// Sets a name to a word.
    Lit(u32, u32),
    /// Sets a name to the word of another.
    Copy(u32, u32),
    /// Sets a name to what an operation makes of two words.
    Op(u32, BinOp, u32, Operand),
    /// Sets a name to the bytes in memory at an address and a byte offset, the lowest first.
    Load(u32, Size, u32, i32),
    /// Puts the low bytes of the second name's word at the address in the first and a byte offset.
    Store(Size, u32, u32, i32),
    /// Sets a name to bytes of a constant table, at an offset.
    Table(u32, Size, Items<u8>, u32),
    /// Runs statements while a buffer of so many bytes stands at the address in a name.
    Stackalloc(u32, u32, Items<Stmt>),
    /// The first statements where the test holds, else the second.
    If(Cond, Items<Stmt>, Items<Stmt>),
    /// Runs the first statements and tests; where the test holds it runs the last statements and
    /// begins again.
    Loop(Items<Stmt>, Cond, Items<Stmt>),
    /// Sets names to the results of a call of the function of a number, with the words of names.
    Call(Items<u32>, u32, Items<u32>),
    /// Sets a name to what the device word is read as whose address is in another.
    Read(u32, u32),
    /// Writes the second name's word to the device word whose address is in the first.
    Write(u32, u32),
}

/// A function: its arguments and results, each at most eight, and the count of its names. Each name
/// in it is below that count.
#[derive(Debug, Drop)]
pub struct FlatFunc {
    pub name: Name,
    pub args: Items<u32>,
    pub results: Items<u32>,
    pub names: u32,
    pub body: Items<Stmt>,
}

/// Functions, which calls know by their numbers, counted from 0.
#[derive(Debug, Drop)]
pub struct FlatProgram {
    pub funcs: Items<FlatFunc>,
}

/// New names for a function: a number for each of its names.
#[derive(Debug, Drop)]
pub struct Proposal {
    pub to: Items<u32>,
}
