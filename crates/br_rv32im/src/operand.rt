// The operands of an instruction as a listing shows them.

ghost use Rattle.std.specs.Prelude.{Some};

use std::fmt;

/// A register by its number: `x5`.
#[derive(Clone, Copy)]
pub struct Register(pub u32);

impl fmt::Display for Register {
    ghost use Rattle.br_rv32im.specs.Listing.{register};

    ghost output = { λ r. Some (register r.0) };

    fn fmt<W: fmt::Write>(&self, f: &mut fmt::Formatter<W>) -> fmt::Result {
        write!(f, "x{}", self.0)
    }
}

/// An address by its offset from a register: `-4(x2)`.
#[derive(Clone, Copy)]
pub struct Address {
    pub offset: i32,
    pub base: Register,
}

impl fmt::Display for Address {
    ghost use Rattle.br_rv32im.specs.Listing.{address};

    ghost output = { λ a. Some (address a.offset a.base.0) };

    fn fmt<W: fmt::Write>(&self, f: &mut fmt::Formatter<W>) -> fmt::Result {
        write!(f, "{}({})", self.offset, self.base)
    }
}
