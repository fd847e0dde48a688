// Commands that name functions and variables by numbers.

use crate::variable_names::VariableNames;
use br_base::Name;
use br_syntax::Func;
use br_words::{BinOp, Size};
use sqlite_items::{Boxed, Items};

/// The function that a call names.
#[derive(Drop)]
pub(crate) enum Target<'a> {
    /// The one with the name that has this number.
    Number(usize),
    /// The one of this name, which has no number as no function has it.
    Missing(&'a Name),
}

/// An expression of the source, with numbers in place of the names of variables.
#[derive(Drop)]
pub(crate) enum NumberedExpr<'a> {
    Literal(u32),
    Var(usize),
    Load(Size, Boxed<NumberedExpr<'a>>),
    Table(Size, &'a [u8], Boxed<NumberedExpr<'a>>),
    Op(BinOp, Boxed<NumberedExpr<'a>>, Boxed<NumberedExpr<'a>>),
    Ite(Boxed<NumberedExpr<'a>>, Boxed<NumberedExpr<'a>>, Boxed<NumberedExpr<'a>>),
}

/// A command of the source, with numbers in place of names.
#[derive(Drop)]
pub(crate) enum NumberedCmd<'a> {
    Skip,
    Set(usize, NumberedExpr<'a>),
    Unset(usize),
    Store(Size, NumberedExpr<'a>, NumberedExpr<'a>),
    Stackalloc(usize, u32, Items<NumberedCmd<'a>>),
    If(NumberedExpr<'a>, Items<NumberedCmd<'a>>, Items<NumberedCmd<'a>>),
    While(NumberedExpr<'a>, Items<NumberedCmd<'a>>),
    Seq(Items<NumberedCmd<'a>>),
    Call {
        at: u32,
        results: Items<usize>,
        callee: Target<'a>,
        args: Items<NumberedExpr<'a>>,
    },
    Interact {
        at: u32,
        results: Items<usize>,
        action: &'a Name,
        args: Items<NumberedExpr<'a>>,
    },
}

/// A function of the source, the names of its variables, and its parts with numbers.
#[derive(Drop)]
pub(crate) struct NumberedFunc<'a> {
    pub(crate) func: &'a Func,
    pub(crate) names: VariableNames<'a>,
    pub(crate) args: Items<usize>,
    pub(crate) results: Items<usize>,
    pub(crate) body: Items<NumberedCmd<'a>>,
}
