// Fields of a word.

ghost use Rattle.std.specs.Prelude.{◌≡◌, ◌^◌, ◌<◌, ◌≤◌};
ghost use Rattle.br_words.specs.Bits.{field, sign_extended};

/// Bits `HI` down to `LO` of a word, as a number.
pub fn bits<const HI: u32, const LO: u32>(w: u32) -> u32
    requires ordered { LO ≤ HI }
    requires inside { HI ≤ 31 }
    ensures { result ≡ field HI LO w }
{
    w >> LO & (u32::MAX >> (31 - (HI - LO)))
}

/// The word whose upper bits repeat bit `N - 1` of `x`, a number of `N` bits.
pub fn sext<const N: u32>(x: u32) -> u32
    requires some_bit { 1 ≤ N }
    requires inside { N ≤ 32 }
    requires fits { x < 2 ^ N }
    ensures { result ≡ sign_extended N x }
{
    let above = 32 - N;
    ((x << above).cast_signed() >> above).cast_unsigned()
}
