// The words that literals gave names.

ghost use Rattle.std.specs.Prelude.{◌≡◌, OnOk, None, Some};
ghost use Rattle.br_immediates.specs.Immediates.{no_literals, operand_of, turn};
ghost use Rattle.br_immediates.specs.Immediates.{with_constant, with_literal};
ghost use Rattle.br_immediates.specs.Tables.{literals_of};

use br_base::NoMemory;
use br_flatimp::{Operand, Stmt, constant_fits};
use br_words::BinOp;
use std::alloc::Global;
use std::collections::BTreeMap;

/// The words that literals gave names which still have them.
#[derive(Drop)]
pub(crate) struct Literals {
    words: BTreeMap<u32, u32>,
}

impl Literals {
    /// No name has a word of a literal.
    pub(crate) fn new(alloc: Global) -> Literals
        ensures { literals_of result.words ≡ no_literals }
    {
        Literals {
            words: BTreeMap::new(alloc),
        }
    }

    /// An operand, or the constant in its place that the operation may have.
    pub(crate) fn operand(&self, op: BinOp, z: Operand) -> Operand
        ensures { result ≡ with_constant op (literals_of self.now.words) z }
    {
        match z {
            Operand::Name(y) => operand_of(op, y, self.words.get(&y).copied()),
            Operand::Const(c) => Operand::Const(c),
        }
    }

    /// What literals give names after a statement.
    #[tactic(auto, using(crate::proofs::Codes::after))]
    pub(crate) fn pass(&mut self, s: &Stmt) -> Result<(), NoMemory>
        ensures { OnOk result
            (literals_of self.new.words ≡ (turn s.now).after (literals_of self.old.words)) }
    {
        match s {
            Stmt::Lit(x, n) => self.set(*x, *n)?,
            Stmt::Copy(x, _)
            | Stmt::Op(x, _, _, _)
            | Stmt::Load(x, _, _, _)
            | Stmt::Table(x, _, _, _)
            | Stmt::Read(x, _) => self.forget(*x),
            Stmt::Store(_, _, _, _) | Stmt::Write(_, _) => {}
            Stmt::Stackalloc(_, _, _)
            | Stmt::If(_, _, _)
            | Stmt::Loop(_, _, _)
            | Stmt::Call(_, _, _) => self.forget_all(),
        }
        Ok(())
    }

    fn set(&mut self, x: u32, n: u32) -> Result<(), NoMemory>
        ensures { OnOk result
            (literals_of self.new.words ≡ with_literal x (Some n) (literals_of self.old.words)) }
    {
        self.words.insert(x, n)?;
        Ok(())
    }

    fn forget(&mut self, x: u32)
        ensures { literals_of self.new.words ≡ with_literal x None (literals_of self.old.words) }
    {
        self.words.remove(&x);
    }

    fn forget_all(&mut self)
        ensures { literals_of self.new.words ≡ no_literals }
    {
        self.words.clear();
    }
}

// A name, or the constant in its place.
fn operand_of(op: BinOp, y: u32, word: Option<u32>) -> Operand
    ensures { result ≡ operand_of op y word }
{
    match word {
        Some(n) => {
            if constant_fits(op, n.cast_signed()) {
                return Operand::Const(n.cast_signed());
            }
            Operand::Name(y)
        }
        None => Operand::Name(y),
    }
}
