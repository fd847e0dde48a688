// The word that fields make in each format (RISC-V unprivileged manual, base instruction formats
// and immediate encoding variants). No two fields share a bit, so their sum sets them side by side.

ghost use Rattle.std.specs.Prelude.{◌≡◌, ◌^◌, ◌<◌, ◌+◌, ◌-◌, ◌*◌};
ghost use Rattle.br_rv32im.specs.Encoding.{b_word, FitsBits, i_word};
ghost use Rattle.br_rv32im.specs.Encoding.{j_word, r_word, s_word, u_word};

use br_words::bits;

pub fn register_word(opcode: u32, funct3: u32, funct7: u32, rd: u32, rs1: u32, rs2: u32) -> u32
    requires opcode_fits { FitsBits 7 opcode }
    requires funct3_fits { FitsBits 3 funct3 }
    requires funct7_fits { FitsBits 7 funct7 }
    requires rd_fits { FitsBits 5 rd }
    requires rs1_fits { FitsBits 5 rs1 }
    requires rs2_fits { FitsBits 5 rs2 }
    ensures { result ≡ r_word opcode funct3 funct7 rd rs1 rs2 }
{
    (funct7 << 25) + (rs2 << 20) + (rs1 << 15) + (funct3 << 12) + (rd << 7) + opcode
}

/// imm[11:0] at 31..20.
pub fn immediate_word(opcode: u32, funct3: u32, rd: u32, rs1: u32, imm: i32) -> u32
    requires opcode_fits { FitsBits 7 opcode }
    requires funct3_fits { FitsBits 3 funct3 }
    requires rd_fits { FitsBits 5 rd }
    requires rs1_fits { FitsBits 5 rs1 }
    ensures { result ≡ i_word opcode funct3 rd rs1 imm }
{
    let imm = imm.cast_unsigned();
    (bits::<11, 0>(imm) << 20) + (rs1 << 15) + (funct3 << 12) + (rd << 7) + opcode
}

/// imm[11:5] at 31..25, imm[4:0] at 11..7.
pub fn store_word(opcode: u32, funct3: u32, rs1: u32, rs2: u32, imm: i32) -> u32
    requires opcode_fits { FitsBits 7 opcode }
    requires funct3_fits { FitsBits 3 funct3 }
    requires rs1_fits { FitsBits 5 rs1 }
    requires rs2_fits { FitsBits 5 rs2 }
    ensures { result ≡ s_word opcode funct3 rs1 rs2 imm }
{
    let imm = imm.cast_unsigned();
    let high = (bits::<11, 5>(imm) << 25) + (rs2 << 20) + (rs1 << 15);
    high + (funct3 << 12) + (bits::<4, 0>(imm) << 7) + opcode
}

/// imm[12] at 31, imm[10:5] at 30..25, imm[4:1] at 11..8, imm[11] at 7.
pub fn branch_word(opcode: u32, funct3: u32, rs1: u32, rs2: u32, imm: i32) -> u32
    requires opcode_fits { FitsBits 7 opcode }
    requires funct3_fits { FitsBits 3 funct3 }
    requires rs1_fits { FitsBits 5 rs1 }
    requires rs2_fits { FitsBits 5 rs2 }
    ensures { result ≡ b_word opcode funct3 rs1 rs2 imm }
{
    let imm = imm.cast_unsigned();
    let high = (bits::<12, 12>(imm) << 31) + (bits::<10, 5>(imm) << 25);
    let low = (bits::<4, 1>(imm) << 8) + (bits::<11, 11>(imm) << 7);
    high + (rs2 << 20) + (rs1 << 15) + (funct3 << 12) + low + opcode
}

/// imm[31:12] at 31..12.
pub fn upper_word(opcode: u32, rd: u32, imm: u32) -> u32
    requires opcode_fits { FitsBits 7 opcode }
    requires rd_fits { FitsBits 5 rd }
    requires imm_fits { FitsBits 20 imm }
    ensures { result ≡ u_word opcode rd imm }
{
    (imm << 12) + (rd << 7) + opcode
}

/// imm[20] at 31, imm[10:1] at 30..21, imm[11] at 20, imm[19:12] at 19..12.
pub fn jump_word(opcode: u32, rd: u32, imm: i32) -> u32
    requires opcode_fits { FitsBits 7 opcode }
    requires rd_fits { FitsBits 5 rd }
    ensures { result ≡ j_word opcode rd imm }
{
    let imm = imm.cast_unsigned();
    let high = (bits::<20, 20>(imm) << 31) + (bits::<10, 1>(imm) << 21);
    let low = (bits::<11, 11>(imm) << 20) + (bits::<19, 12>(imm) << 12);
    high + low + (rd << 7) + opcode
}
