// Numbers as a text spells them.

ghost use Rattle.std.specs.Prelude.{◌≡◌, ◌≤◌, Some};
ghost use Rattle.std.specs.Option.{option_map};
ghost use Rattle.br_sexpr.specs.Number.{number_of, leads_no_zero, behind_0x, hexadecimal, word_in};
ghost use Rattle.br_sexpr.specs.Progress.{and_digit};

/// The number that a run is: `0`, or decimal digits that begin with no zero and stand for a number
/// below 2^32, or `0x` and one to eight hexadecimal digits of either case. None of any other run.
pub fn number(run: &[u8]) -> Option<u32>
    ensures { result ≡ number_of run.now }
{
    if leads_no_zero(run) {
        return word_in(10, run);
    }
    match behind_0x(run) {
        Some(digits) => hexadecimal(digits),
        None => None,
    }
}

fn leads_no_zero(run: &[u8]) -> bool
    ensures { result ≡ leads_no_zero run.now }
{
    match run.split_first() {
        None => false,
        Some((first, rest)) => rest.is_empty() || *first != b'0',
    }
}

fn behind_0x(run: &[u8]) -> Option<&[u8]>
    ensures { option_map (λ digits. digits.now) result ≡ behind_0x run.now }
{
    let (first, rest) = run.split_first()?;
    let (second, digits) = rest.split_first()?;
    if *first == b'0' && *second == b'x' {
        Some(digits)
    } else {
        None
    }
}

fn hexadecimal(digits: &[u8]) -> Option<u32>
    ensures { result ≡ hexadecimal (Some digits.now) }
{
    if digits.is_empty() || digits.len() > 8 {
        return None;
    }
    word_in(16, digits)
}

fn word_in(base: u32, digits: &[u8]) -> Option<u32>
    requires low { 2 ≤ base }
    requires high { base ≤ 16 }
    ensures { result ≡ word_in base digits.now }
{
    let mut value = 0u32;
    for byte in digits {
        value = and_digit(base, value, *byte)?;
    }
    Some(value)
}

// The number with one more digit after it.
fn and_digit(base: u32, value: u32, byte: u8) -> Option<u32>
    requires low { 2 ≤ base }
    requires high { base ≤ 16 }
    ensures { result ≡ and_digit base value byte }
{
    let digit = char::from(byte).to_digit(base)?;
    value.checked_mul(base)?.checked_add(digit)
}
