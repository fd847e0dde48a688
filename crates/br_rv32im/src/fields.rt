// The fields of a word and its immediate in each format (RISC-V unprivileged manual, base
// instruction formats and immediate encoding variants).

ghost use Rattle.std.specs.Prelude.{◌≡◌};
ghost use Rattle.br_rv32im.specs.Encoding.{FitsSignedBits, IsEven};
ghost use Rattle.br_rv32im.specs.Row.{funct3, funct7, imm_b, imm_i};
ghost use Rattle.br_rv32im.specs.Row.{imm_j, imm_s, opcode, rd, rs1, rs2};

use br_words::{bits, sext};

/// The fields that stand at one place in every format that has them.
#[derive(Clone, Copy)]
pub struct Fields {
    pub opcode: u32,
    pub rd: u32,
    pub funct3: u32,
    pub rs1: u32,
    pub rs2: u32,
    pub funct7: u32,
}

pub fn fields_of(w: u32) -> Fields
    ensures opcode { result.opcode ≡ opcode w }
    ensures rd { result.rd ≡ rd w }
    ensures funct3 { result.funct3 ≡ funct3 w }
    ensures rs1 { result.rs1 ≡ rs1 w }
    ensures rs2 { result.rs2 ≡ rs2 w }
    ensures funct7 { result.funct7 ≡ funct7 w }
{
    Fields {
        opcode: bits::<6, 0>(w),
        rd: bits::<11, 7>(w),
        funct3: bits::<14, 12>(w),
        rs1: bits::<19, 15>(w),
        rs2: bits::<24, 20>(w),
        funct7: bits::<31, 25>(w),
    }
}

/// Of the I format: imm[11:0] at 31..20.
pub fn i_immediate(w: u32) -> i32
    ensures value { result ≡ imm_i w }
    ensures range { FitsSignedBits 12 result }
{
    sext::<12>(bits::<31, 20>(w)).cast_signed()
}

/// Of the S format: imm[11:5] at 31..25, imm[4:0] at 11..7.
pub fn s_immediate(w: u32) -> i32
    ensures value { result ≡ imm_s w }
    ensures range { FitsSignedBits 12 result }
{
    sext::<12>((bits::<31, 25>(w) << 5) + bits::<11, 7>(w)).cast_signed()
}

/// Of the B format: imm[12] at 31, imm[11] at 7, imm[10:5] at 30..25, imm[4:1] at 11..8.
pub fn b_immediate(w: u32) -> i32
    ensures value { result ≡ imm_b w }
    ensures range { FitsSignedBits 13 result }
    ensures even { IsEven result }
{
    let high = (bits::<31, 31>(w) << 12) + (bits::<7, 7>(w) << 11);
    let low = (bits::<30, 25>(w) << 5) + (bits::<11, 8>(w) << 1);
    sext::<13>(high + low).cast_signed()
}

/// Of the J format: imm[20] at 31, imm[19:12] at 19..12, imm[11] at 20, imm[10:1] at 30..21.
pub fn j_immediate(w: u32) -> i32
    ensures value { result ≡ imm_j w }
    ensures range { FitsSignedBits 21 result }
    ensures even { IsEven result }
{
    let high = (bits::<31, 31>(w) << 20) + (bits::<19, 12>(w) << 12);
    let low = (bits::<20, 20>(w) << 11) + (bits::<30, 21>(w) << 1);
    sext::<21>(high + low).cast_signed()
}
