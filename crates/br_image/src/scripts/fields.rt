// Reading the fields of a line, each after one space.

ghost use Rattle.std.specs.Prelude.{◌≡◌, ◌≢◌, ◌<◌, ◌≤◌, ◌^◌, ◌++◌, ◌∷◌, [], ℕ};
ghost use Rattle.std.specs.Prelude.{List, length, All, IfSome, IfNone, IfOk};
ghost use Rattle.std.specs.Fmt.{decimal};
ghost use Rattle.br_image.specs.Text.{word_text};
ghost use Rattle.br_image.specs.Forms.{Lacks, IsTail};
ghost use Rattle.br_image.specs.Fields.{word_fields, bytes_field};
ghost use Rattle.br_bytes.specs.Hexadecimal.{bytes_text};

use crate::parsing::{parse_number, parse_word};
use br_base::NoMemory;
use hex::FromHexError;
use sqlite_items::Items;
use std::alloc::Global;

/// What stands before the first space, and the space with what follows.
pub(crate) fn first_word(bytes: &[u8]) -> (&[u8], &[u8])
    ensures whole { bytes.now ≡ result.0.now ++ result.1.now }
    ensures word { Lacks 32 result.0.now }
    ensures tail { IsTail result.1.now }
{
    let end = bytes.iter().position(|b| *b == b' ').unwrap_or(bytes.len());
    bytes.split_at(end)
}

/// What stands after the space that comes first.
pub(crate) fn after_space(tail: &[u8]) -> Option<&[u8]>
    ensures some { IfSome result (λ rest. tail.now ≡ 32 ∷ rest.now) }
    ensures none { IfNone result ((rest : List ℕ) → tail.now ≢ 32 ∷ rest) }
{
    match tail {
        [b' ', rest @ ..] => Some(rest),
        _ => None,
    }
}

/// The word in the field that comes first, and what follows it.
pub(crate) fn word_field(tail: &[u8]) -> Option<(u32, &[u8])>
    ensures some { IfSome result
        (λ p. (p.0 < 2 ^ 32) × (tail.now ≡ 32 ∷ (word_text p.0 ++ p.1.now))) }
    ensures none { IfNone result
        ((w : ℕ) (rest : List ℕ) → w < 2 ^ 32 → tail.now ≢ 32 ∷ (word_text w ++ rest)) }
{
    let rest = after_space(tail)?;
    if rest.len() < 8 {
        return None;
    }
    let word = parse_word(&rest[..8])?;
    Some((word, &rest[8..]))
}

/// The word in the only field.
pub(crate) fn only_word(tail: &[u8]) -> Option<u32>
    ensures some { IfSome result (λ w. (w < 2 ^ 32) × (tail.now ≡ 32 ∷ word_text w)) }
    ensures none { IfNone result ((w : ℕ) → w < 2 ^ 32 → tail.now ≢ 32 ∷ word_text w) }
{
    parse_word(after_space(tail)?)
}

/// The number, at most `most`, in the only field.
pub(crate) fn only_number(tail: &[u8], most: u32) -> Option<u32>
    ensures some { IfSome result (λ n. (n ≤ most) × (tail.now ≡ 32 ∷ decimal n)) }
    ensures none { IfNone result ((n : ℕ) → n ≤ most → tail.now ≢ 32 ∷ decimal n) }
{
    parse_number(after_space(tail)?, most)
}

/// The words in at most `most` fields, with nothing else.
pub(crate) fn only_words(
    alloc: Global,
    tail: &[u8],
    most: usize,
) -> Result<Option<Items<u32>>, NoMemory>
    ensures some { IfOk result (λ o. IfSome o
        (λ ws. (length ws ≤ most) × All (λ w. w < 2 ^ 32) ws × (tail.now ≡ word_fields ws))) }
    ensures none { IfOk result (λ o. IfNone o
        ((ws : List ℕ) → length ws ≤ most → All (λ w. w < 2 ^ 32) ws → tail.now ≢ word_fields ws)) }
{
    let mut words = Items::new(alloc);
    let mut left = tail;
    while !left.is_empty() {
        if words.len() == most {
            return Ok(None);
        }
        let Some((word, rest)) = word_field(left) else {
            return Ok(None);
        };
        words.push(word)?;
        left = rest;
    }
    Ok(Some(words))
}

/// The bytes in a field of digits, two for each byte, where no field stands for no bytes.
pub(crate) fn only_bytes(alloc: Global, tail: &[u8]) -> Result<Option<Items<u8>>, NoMemory>
    ensures some { IfOk result
        (λ o. IfSome o (λ bytes. All (λ b. b < 256) bytes × (tail.now ≡ bytes_field bytes))) }
    ensures none { IfOk result (λ o.
        IfNone o ((bytes : List ℕ) → All (λ b. b < 256) bytes → tail.now ≢ bytes_field bytes)) }
{
    if tail.is_empty() {
        return Ok(Some(Items::new(alloc)));
    }
    match after_space(tail) {
        None | Some([]) => Ok(None),
        Some(digits) => parse_bytes(alloc, digits),
    }
}

// The bytes that digits stand for, two in lower case for each byte.
fn parse_bytes(alloc: Global, digits: &[u8]) -> Result<Option<Items<u8>>, NoMemory>
    ensures some { IfOk result
        (λ o. IfSome o (λ bytes. All (λ b. b < 256) bytes × (digits.now ≡ bytes_text bytes))) }
    ensures none { IfOk result (λ o.
        IfNone o ((bytes : List ℕ) → All (λ b. b < 256) bytes → digits.now ≢ bytes_text bytes)) }
{
    match hex::decode(alloc, digits) {
        Ok(bytes) => {
            let text = hex::encode(alloc, bytes.as_slice())?;
            if text.as_bytes() == digits {
                return Ok(Some(Items::from_vec(bytes)));
            }
            Ok(None)
        }
        Err(fault) => match fault {
            FromHexError::OutOfMemory => Err(NoMemory),
            _ => Ok(None),
        },
    }
}
