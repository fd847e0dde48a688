// The text of an instruction in a listing.

ghost use Rattle.std.specs.Prelude.{◌≡◌, IfOk};
ghost use Rattle.std.specs.String.{string_bytes};
ghost use Rattle.br_rv32im.specs.Encoding.{Fits};
ghost use Rattle.br_rv32im.specs.Listing.{listing_of};

use crate::instruction::Ins;
use crate::operand::{Address, Register};
use br_base::NoMemory;
use std::alloc::{AllocError, Global};

/// The text of an instruction: its mnemonic in lower case and its operands, as `sw x5, 8(x2)`.
/// Signed numbers are decimal; the immediate of LUI and AUIPC has five hexadecimal digits.
pub fn listing(alloc: Global, i: Ins) -> Result<Vec<u8>, NoMemory>
    requires { Fits i }
    ensures { IfOk result (λ v. v.items ≡ listing_of i) }
{
    let text = text_of(alloc, i)?;
    Ok(text.into_bytes())
}

#[tactic(auto, unfolding(crate::specs::Listing::listing_of))]
fn text_of(alloc: Global, i: Ins) -> Result<String, AllocError>
    requires { Fits i }
    ensures { IfOk result (λ t. string_bytes t ≡ listing_of i) }
{
    match i {
        Ins::Upper(op, rd, imm) => format!(in alloc; "{op} {}, 0x{imm:05x}", Register(rd)),
        Ins::Jal(rd, imm) => format!(in alloc; "jal {}, {imm}", Register(rd)),
        Ins::Jalr(rd, base, offset) => format!(in alloc;
            "jalr {}, {}",
            Register(rd),
            at(base, offset)
        ),
        Ins::Branch(op, rs1, rs2, imm) => {
            format!(in alloc; "{op} {}, {}, {imm}", Register(rs1), Register(rs2))
        }
        Ins::Load(op, rd, base, offset) => {
            format!(in alloc; "{op} {}, {}", Register(rd), at(base, offset))
        }
        Ins::Store(op, base, rs2, offset) => {
            format!(in alloc; "{op} {}, {}", Register(rs2), at(base, offset))
        }
        Ins::Imm(op, rd, rs1, imm) => {
            format!(in alloc; "{op} {}, {}, {imm}", Register(rd), Register(rs1))
        }
        Ins::Shift(op, rd, rs1, amount) => {
            format!(in alloc; "{op} {}, {}, {amount}", Register(rd), Register(rs1))
        }
        Ins::Reg(op, rd, rs1, rs2) => {
            format!(in alloc;
                "{op} {}, {}, {}",
                Register(rd),
                Register(rs1),
                Register(rs2)
            )
        }
        Ins::Ecall => format!(in alloc; "ecall"),
    }
}

fn at(base: u32, offset: i32) -> Address
    ensures offset { result.offset ≡ offset }
    ensures base { result.base.0 ≡ base }
{
    Address {
        offset,
        base: Register(base),
    }
}
