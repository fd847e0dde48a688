// Reading one line of an image's text.

ghost use Rattle.std.specs.Prelude.{◌≡◌, ◌≢◌, ◌+◌, ◌*◌, ◌<◌, ◌≤◌, ◌^◌, ◌++◌, ◌∷◌, ℕ};
ghost use Rattle.std.specs.Prelude.{List, IfSome, IfNone, IfOk, MatchOption, codes};
ghost use Rattle.std.specs.Fmt.{decimal};
ghost use Rattle.std.specs.Str.Parse.{AllDigits, digits_value};
ghost use Rattle.br_words.specs.declared.layout.Layout.{Layout};
ghost use Rattle.br_words.specs.declared.layout.Layout.TheVariants.{Two};
ghost use Rattle.br_words.specs.Layout.{most_words, most_stack};
ghost use Rattle.br_image.specs.Text.{word_text};
ghost use Rattle.br_base.specs.Name.{IsName};
ghost use Rattle.br_image.specs.declared.images.Entry.{Entry};
ghost use Rattle.br_image.specs.Lines.{IsEntryLine};
ghost use Rattle.br_image.specs.Forms.{Lacks, numbers_text, fields_text, IsLineOf};

use crate::images::Entry;
use crate::lines::Line;
use crate::printing::word_digits;
use br_base::{Name, NoMemory};
use br_words::{Layout, STACK_BASE, STACK_END};
use std::alloc::Global;

// The most bytes of stack that an entry may state: the stack region.
const MOST_STACK: u32 = STACK_END - STACK_BASE;

/// The line that these bytes are in a text whose layout is this. None where they are of none of the
/// five forms.
pub(crate) fn parse_line(
    alloc: Global,
    layout: Layout,
    bytes: &[u8],
) -> Result<Option<Line>, NoMemory>
    ensures { IfOk result (IsLineOf layout bytes.now) }
{
    match cut(bytes, b' ') {
        None => Ok(parse_single(bytes)),
        Some((first, rest)) => parse_worded(alloc, layout, first, rest),
    }
}

// The line that bytes with no space in them are.
fn parse_single(bytes: &[u8]) -> Option<Line>
    requires { Lacks 32 bytes.now }
    ensures { (layout : Layout) → IsLineOf layout bytes.now result }
{
    if bytes == b"end".as_slice() {
        return Some(Line::End);
    }
    parse_word(bytes).map(Line::Word)
}

// The line that begins with this word and a space, and goes on with the rest.
fn parse_worded(
    alloc: Global,
    layout: Layout,
    first: &[u8],
    rest: &[u8],
) -> Result<Option<Line>, NoMemory>
    requires { Lacks 32 first.now }
    ensures { IfOk result (IsLineOf layout (first.now ++ 32 ∷ rest.now)) }
{
    if first == b"brimage".as_slice() {
        return Ok(parse_version(rest));
    }
    if first == b"entry".as_slice() {
        return Ok(parse_entry(alloc, rest)?.map(Line::Function));
    }
    if first == b"code".as_slice() {
        return Ok(parse_number(rest, layout.most_words()).map(Line::Count));
    }
    Ok(None)
}

// The line whose first word is `brimage`.
fn parse_version(rest: &[u8]) -> Option<Line>
    ensures { (layout : Layout) → IsLineOf layout (codes "brimage" ++ 32 ∷ rest.now) result }
{
    if rest == b"1".as_slice() {
        return Some(Line::Header(Layout::One));
    }
    if rest == b"2".as_slice() {
        return Some(Line::Header(Layout::Two));
    }
    None
}

// The entry whose name and numbers these bytes are, with one space between two of them.
fn parse_entry(alloc: Global, bytes: &[u8]) -> Result<Option<Entry>, NoMemory>
    ensures found { IfOk result (λ o. IfSome o (λ e. IsEntryLine e × (bytes.now ≡ fields_text e))) }
    ensures none { IfOk result
        (λ o. IfNone o ((e : Entry) → IsEntryLine e → bytes.now ≢ fields_text e)) }
{
    let Some((name, rest)) = cut(bytes, b' ') else {
        return Ok(None);
    };
    let Some(numbers) = parse_numbers(rest) else {
        return Ok(None);
    };
    let Some(name) = Name::from_bytes(Vec::from_slice(alloc, name)?) else {
        return Ok(None);
    };
    Ok(Some(Entry {
        name,
        args: numbers.args,
        results: numbers.results,
        offset: numbers.offset,
        need: numbers.need,
    }))
}

/// The numbers of an entry.
#[derive(Clone, Copy)]
struct Numbers {
    args: u32,
    results: u32,
    offset: u32,
    need: u32,
}

fn parse_numbers(bytes: &[u8]) -> Option<Numbers>
    ensures ranges { IfSome result (λ n. (n.args ≤ 8) × (n.results ≤ 8)
        × (n.offset < 4 * most_words Two) × (n.need ≤ most_stack)) }
    ensures found { IfSome result (λ n. bytes.now ≡ numbers_text n.args n.results n.offset n.need) }
    ensures none { IfNone result ((a r o n : ℕ) → a ≤ 8 → r ≤ 8 → o < 4 * most_words Two →
        n ≤ most_stack → bytes.now ≢ numbers_text a r o n) }
{
    let (args, rest) = parse_field(bytes, 8)?;
    let (results, rest) = parse_field(rest, 8)?;
    let (offset, rest) = parse_field(rest, 4 * Layout::Two.most_words() - 1)?;
    let need = parse_number(rest, MOST_STACK)?;
    Some(Numbers {
        args,
        results,
        offset,
        need,
    })
}

// A number and the space after it, and what follows.
fn parse_field(bytes: &[u8], most: u32) -> Option<(u32, &[u8])>
    ensures found { IfSome result (λ p. (p.0 ≤ most) × (bytes.now ≡ decimal p.0 ++ 32 ∷ p.1.now)) }
    ensures none { IfNone result
        ((n : ℕ) (rest : List ℕ) → n ≤ most → bytes.now ≢ decimal n ++ 32 ∷ rest) }
{
    let (digits, rest) = cut(bytes, b' ')?;
    let number = parse_number(digits, most)?;
    Some((number, rest))
}

/// What stands before the first separator, and what stands after it.
pub(crate) fn cut(bytes: &[u8], separator: u8) -> Option<(&[u8], &[u8])>
    ensures found { IfSome result
        (λ p. (bytes.now ≡ p.0.now ++ separator ∷ p.1.now) × Lacks separator p.0.now) }
    ensures none { IfNone result (Lacks separator bytes.now) }
{
    let at = bytes.iter().position(|b| *b == separator)?;
    Some((&bytes[..at], &bytes[at + 1..]))
}

/// The word that eight hexadecimal digits in lower case stand for.
pub(crate) fn parse_word(digits: &[u8]) -> Option<u32>
    ensures found { IfSome result (λ w. (w < 2 ^ 32) × (digits.now ≡ word_text w)) }
    ensures none { IfNone result ((w : ℕ) → w < 2 ^ 32 → digits.now ≢ word_text w) }
{
    let mut bytes = [0u8; 4];
    hex::decode_to_slice(digits, &mut bytes).ok()?;
    let word = u32::from_be_bytes(bytes);
    if word_digits(word).as_slice() == digits {
        Some(word)
    } else {
        None
    }
}

/// The number, at most `most`, that these bytes are the decimal text of, with no zero before it.
#[tactic(auto, using(crate::proofs::Decoding::decimal_steps))]
pub(crate) fn parse_number(digits: &[u8], most: u32) -> Option<u32>
    ensures found { IfSome result (λ n. (n ≤ most) × (digits.now ≡ decimal n)) }
    ensures none { IfNone result ((n : ℕ) → n ≤ most → digits.now ≢ decimal n) }
{
    let first = *digits.first()?;
    if first == b'0' && digits.len() > 1 {
        return None;
    }
    value_of(digits, most)
}

#[tactic(auto, using(crate::proofs::Decoding::number_steps))]
fn value_of(digits: &[u8], most: u32) -> Option<u32>
    ensures found { IfSome result
        (λ n. (n ≤ most) × AllDigits 10 digits.now × (digits_value 10 digits.now ≡ n)) }
    ensures none { IfNone result (AllDigits 10 digits.now → most < digits_value 10 digits.now) }
{
    let mut value = 0u64;
    for digit in digits {
        if !digit.is_ascii_digit() {
            return None;
        }
        value = value * 10 + u64::from(*digit - b'0');
        if value > u64::from(most) {
            return None;
        }
    }
    Some(value as u32)
}
