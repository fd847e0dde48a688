// The ranges of the fields of an instruction.

ghost use Rattle.std.specs.Prelude.{◌≡◌, ◌^◌, ◌<◌, ◌≤◌, ◌↔◌, IsTrue};
ghost use Rattle.br_rv32im.specs.Encoding.{FitsBits, FitsSignedBits, IsEven};

/// Whether it is the number of a register.
pub fn is_register(r: u32) -> bool
    ensures { IsTrue result ↔ FitsBits 5 r }
{
    r < 32
}

/// Whether it is a signed number of `N` bits in two's complement.
pub fn is_signed<const N: u32>(imm: i32) -> bool
    requires some_bit { 1 ≤ N }
    requires inside { N < 32 }
    ensures { IsTrue result ↔ FitsSignedBits N imm }
{
    let end = 1 << (N - 1);
    -end <= imm && imm < end
}

pub fn is_even(imm: i32) -> bool
    ensures { IsTrue result ↔ IsEven imm }
{
    imm.unsigned_abs() % 2 == 0
}
