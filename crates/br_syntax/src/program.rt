// Programs of the source language.

ghost use Rattle.br_syntax.specs.Shape.{IsShaped};

use br_base::Name;
use br_words::{BinOp, Size};
use sqlite_items::{Boxed, Items};

/// An expression, which stands for a word.
#[derive(Debug, Drop)]
pub enum Expr {
    /// This word.
    Literal(u32),
    /// The word of a variable.
    Var(Name),
    /// The bytes in memory at an address, the lowest first.
    Load(Size, Boxed<Expr>),
    /// Bytes of a constant table, at an offset.
    Table(Size, Items<u8>, Boxed<Expr>),
    /// An operation on two words.
    Op(BinOp, Boxed<Expr>, Boxed<Expr>),
    /// The second where the first is not 0, else the third. The other is not looked at.
    Ite(Boxed<Expr>, Boxed<Expr>, Boxed<Expr>),
}

/// A command, which changes variables, memory and devices.
#[derive(Debug, Drop)]
pub enum Cmd {
    /// Nothing.
    Skip,
    /// Sets a variable to a word.
    Set(Name, Expr),
    /// Removes a variable.
    Unset(Name),
    /// Puts the low bytes of the second word at the address that is the first.
    Store(Size, Expr, Expr),
    /// Runs commands while a buffer of so many bytes stands at the address in a variable.
    Stackalloc(Name, u32, Items<Cmd>),
    /// The first commands where the word is not 0, else the second.
    If(Expr, Items<Cmd>, Items<Cmd>),
    /// The commands again and again while the word is not 0.
    While(Expr, Items<Cmd>),
    /// Commands in turn.
    Seq(Items<Cmd>),
    /// A call of a function of the program. `at` is the offset of the callee's name in the text.
    Call {
        at: u32,
        results: Items<Name>,
        callee: Name,
        args: Items<Expr>,
    },
    /// A read or a write of a device word. `at` is the offset of the action's name in the text.
    Interact {
        at: u32,
        results: Items<Name>,
        action: Name,
        args: Items<Expr>,
    },
}

/// A function. `at` is the offset of its name in the text.
#[derive(Debug, Drop)]
pub struct Func {
    pub at: u32,
    pub name: Name,
    pub args: Items<Name>,
    pub results: Items<Name>,
    pub body: Items<Cmd>,
}

/// Functions in the order of the text. Each list of names has at most eight and none twice, each
/// call and interaction has at most eight arguments, and each buffer's size is a multiple of 4 of
/// at most 65,536. So a program has nothing that a source text could not say.
#[derive(Debug, Drop)]
pub struct Program {
    pub funcs: Items<Func>,
    pub ghost shaped: { IsShaped funcs },
}
