// The words that stand first in a list.

ghost use Rattle.std.specs.Prelude.{◌≡◌};
ghost use Rattle.br_base.specs.Name.{IsName};
ghost use Rattle.br_syntax.specs.Denotes.{offset_of, word_of};
ghost use Rattle.br_syntax.specs.Word.{expr_word, cmd_word};

use br_sexpr::Tree;
use br_words::{BinOp, Size};

/// The name that a tree is, and no byte where it is a number or a list.
pub fn word(tree: &Tree) -> &[u8]
    ensures { result.now ≡ word_of tree.now }
{
    match tree {
        Tree::Name { text, .. } => text.bytes(),
        Tree::Number { .. } | Tree::List { .. } => &[],
    }
}

/// The offset of a tree.
pub fn offset(tree: &Tree) -> u32
    ensures { result ≡ offset_of tree.now }
{
    match tree {
        Tree::Name { at, .. } | Tree::Number { at, .. } | Tree::List { at, .. } => *at,
    }
}

/// What an expression in parentheses begins with.
#[derive(Clone, Copy, Debug, PartialEq, Eq)]
pub enum ExprWord {
    Load(Size),
    Table(Size),
    Op(BinOp),
    Ite,
}

/// What a command begins with.
#[derive(Clone, Copy, Debug, PartialEq, Eq)]
pub enum CmdWord {
    Skip,
    Set,
    Unset,
    Store(Size),
    Stackalloc,
    If,
    While,
    Seq,
    Call,
    Interact,
}

/// The meaning of a first word, and None for a word that begins no expression.
pub fn expr_word(word: &[u8]) -> Option<ExprWord>
    ensures { result ≡ expr_word word.now }
{
    match word {
        b"load1" => Some(ExprWord::Load(Size::One)),
        b"load2" => Some(ExprWord::Load(Size::Two)),
        b"load4" => Some(ExprWord::Load(Size::Four)),
        b"table1" => Some(ExprWord::Table(Size::One)),
        b"table2" => Some(ExprWord::Table(Size::Two)),
        b"table4" => Some(ExprWord::Table(Size::Four)),
        b"add" => Some(ExprWord::Op(BinOp::Add)),
        b"sub" => Some(ExprWord::Op(BinOp::Sub)),
        b"mul" => Some(ExprWord::Op(BinOp::Mul)),
        b"mulhuu" => Some(ExprWord::Op(BinOp::Mulhuu)),
        b"divu" => Some(ExprWord::Op(BinOp::Divu)),
        b"remu" => Some(ExprWord::Op(BinOp::Remu)),
        b"and" => Some(ExprWord::Op(BinOp::And)),
        b"or" => Some(ExprWord::Op(BinOp::Or)),
        b"xor" => Some(ExprWord::Op(BinOp::Xor)),
        b"sru" => Some(ExprWord::Op(BinOp::Sru)),
        b"slu" => Some(ExprWord::Op(BinOp::Slu)),
        b"srs" => Some(ExprWord::Op(BinOp::Srs)),
        b"lts" => Some(ExprWord::Op(BinOp::Lts)),
        b"ltu" => Some(ExprWord::Op(BinOp::Ltu)),
        b"eq" => Some(ExprWord::Op(BinOp::Eq)),
        b"ite" => Some(ExprWord::Ite),
        _ => None,
    }
}

/// The meaning of a first word, and None for a word that begins no command.
pub fn cmd_word(word: &[u8]) -> Option<CmdWord>
    ensures { result ≡ cmd_word word.now }
{
    match word {
        b"skip" => Some(CmdWord::Skip),
        b"set" => Some(CmdWord::Set),
        b"unset" => Some(CmdWord::Unset),
        b"store1" => Some(CmdWord::Store(Size::One)),
        b"store2" => Some(CmdWord::Store(Size::Two)),
        b"store4" => Some(CmdWord::Store(Size::Four)),
        b"stackalloc" => Some(CmdWord::Stackalloc),
        b"if" => Some(CmdWord::If),
        b"while" => Some(CmdWord::While),
        b"seq" => Some(CmdWord::Seq),
        b"call" => Some(CmdWord::Call),
        b"interact" => Some(CmdWord::Interact),
        _ => None,
    }
}

/// The word of a load.
pub fn load_word(size: Size) -> &'static [u8]
    ensures meaning { expr_word result.now ≡ Some (ExprWord.Load size) }
    ensures name { IsName result.now }
{
    match size {
        Size::One => b"load1",
        Size::Two => b"load2",
        Size::Four => b"load4",
    }
}

/// The word of a read of a table.
pub fn table_word(size: Size) -> &'static [u8]
    ensures meaning { expr_word result.now ≡ Some (ExprWord.Table size) }
    ensures name { IsName result.now }
{
    match size {
        Size::One => b"table1",
        Size::Two => b"table2",
        Size::Four => b"table4",
    }
}

/// The word of an operation.
pub fn operation_word(operation: BinOp) -> &'static [u8]
    ensures meaning { expr_word result.now ≡ Some (ExprWord.Op operation) }
    ensures name { IsName result.now }
{
    match operation {
        BinOp::Add => b"add",
        BinOp::Sub => b"sub",
        BinOp::Mul => b"mul",
        BinOp::Mulhuu => b"mulhuu",
        BinOp::Divu => b"divu",
        BinOp::Remu => b"remu",
        BinOp::And => b"and",
        BinOp::Or => b"or",
        BinOp::Xor => b"xor",
        BinOp::Sru => b"sru",
        BinOp::Slu => b"slu",
        BinOp::Srs => b"srs",
        BinOp::Lts => b"lts",
        BinOp::Ltu => b"ltu",
        BinOp::Eq => b"eq",
    }
}

/// The word of a conditional expression.
pub fn ite_word() -> &'static [u8]
    ensures meaning { expr_word result.now ≡ Some ExprWord.Ite }
    ensures name { IsName result.now }
{
    b"ite"
}

/// The word of a store.
pub fn store_word(size: Size) -> &'static [u8]
    ensures meaning { cmd_word result.now ≡ Some (CmdWord.Store size) }
    ensures name { IsName result.now }
{
    match size {
        Size::One => b"store1",
        Size::Two => b"store2",
        Size::Four => b"store4",
    }
}
