// Statements that move words: between registers, and to and from the buffer.

ghost use Rattle.std.specs.Prelude.{◌≡◌, ◌<◌, ◌≤◌, ◌++◌, OnOk};
ghost use Rattle.br_spill.specs.Spill.{IsNear, at, bring, copy, fetch, keep, pass, put, put_away};

use crate::place::Place;
use br_base::NoMemory;
use br_flatimp::{Operand, Stmt};
use br_words::{BinOp, Size};
use sqlite_items::Items;

// The register of the buffer's address, and two for words on their way.
pub(crate) const BUFFER: u32 = 3;

pub(crate) const SPARE: u32 = 4;

pub(crate) const OTHER_SPARE: u32 = 5;

// How many words of the buffer are in the reach of a byte offset.
const NEAR: u32 = 512;

/// Loads a word of the buffer to a register.
pub(crate) fn fetch(k: u32, r: u32, out: &mut Items<Stmt>) -> Result<(), NoMemory>
    requires { k ≤ 1048576 }
    ensures { OnOk result (out.new ≡ out.old ++ fetch k r) }
{
    if k < NEAR {
        out.push(Stmt::Load(r, Size::Four, BUFFER, 4 * (k as i32)))?;
        return Ok(());
    }
    out.push(Stmt::Lit(r, 4 * k))?;
    out.push(Stmt::Op(r, BinOp::Add, r, Operand::Name(BUFFER)))?;
    out.push(Stmt::Load(r, Size::Four, r, 0))?;
    Ok(())
}

/// Stores a word of the buffer from a register.
pub(crate) fn put_away(k: u32, r: u32, out: &mut Items<Stmt>) -> Result<(), NoMemory>
    requires { k ≤ 1048576 }
    ensures { OnOk result (out.new ≡ out.old ++ put_away k r) }
{
    if k < NEAR {
        out.push(Stmt::Store(Size::Four, BUFFER, r, 4 * (k as i32)))?;
        return Ok(());
    }
    out.push(Stmt::Lit(OTHER_SPARE, 4 * k))?;
    out.push(Stmt::Op(OTHER_SPARE, BinOp::Add, OTHER_SPARE, Operand::Name(BUFFER)))?;
    out.push(Stmt::Store(Size::Four, OTHER_SPARE, r, 0))?;
    Ok(())
}

/// Brings a word to a register: its own, or a spare one.
pub(crate) fn bring(p: Place, spare: u32, out: &mut Items<Stmt>) -> Result<(), NoMemory>
    requires { IsNear p }
    ensures { OnOk result (out.new ≡ out.old ++ bring p spare) }
{
    match p {
        Place::Register(_) => Ok(()),
        Place::Slot(k) => fetch(k, spare, out),
    }
}

/// The register that a word is brought to, or written to at first.
pub(crate) fn at(p: Place, spare: u32) -> u32
    ensures { result ≡ at p spare }
{
    match p {
        Place::Register(r) => r,
        Place::Slot(_) => spare,
    }
}

/// Puts a word away that was written to the spare register at first.
pub(crate) fn keep(p: Place, out: &mut Items<Stmt>) -> Result<(), NoMemory>
    requires { IsNear p }
    ensures { OnOk result (out.new ≡ out.old ++ keep p) }
{
    match p {
        Place::Register(_) => Ok(()),
        Place::Slot(k) => put_away(k, SPARE, out),
    }
}

/// Puts a register's word in a place.
pub(crate) fn put(p: Place, from: u32, out: &mut Items<Stmt>) -> Result<(), NoMemory>
    requires { IsNear p }
    ensures { OnOk result (out.new ≡ out.old ++ put p from) }
{
    match p {
        Place::Register(r) => {
            out.push(Stmt::Copy(r, from))?;
            Ok(())
        }
        Place::Slot(k) => put_away(k, from, out),
    }
}

/// Passes a word to a register.
pub(crate) fn pass(p: Place, to: u32, out: &mut Items<Stmt>) -> Result<(), NoMemory>
    requires { IsNear p }
    ensures { OnOk result (out.new ≡ out.old ++ pass p to) }
{
    match p {
        Place::Register(r) => {
            out.push(Stmt::Copy(to, r))?;
            Ok(())
        }
        Place::Slot(k) => fetch(k, to, out),
    }
}

/// Puts the word of the second place in the first.
pub(crate) fn copy(to: Place, from: Place, out: &mut Items<Stmt>) -> Result<(), NoMemory>
    requires to { IsNear to }
    requires from { IsNear from }
    ensures { OnOk result (out.new ≡ out.old ++ copy to from) }
{
    match from {
        Place::Register(r) => put(to, r, out),
        Place::Slot(k) => {
            fetch(k, at(to, SPARE), out)?;
            keep(to, out)
        }
    }
}
