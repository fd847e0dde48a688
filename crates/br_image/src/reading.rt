// Reading the text of an image.

ghost use Rattle.std.specs.Prelude.{◌≡◌, ◌≢◌, ◌+◌, ◌*◌, ◌<◌, ◌≤◌, ◌^◌, ◌++◌, ◌∷◌, ◌↔◌, [], ℕ, List};
ghost use Rattle.std.specs.Prelude.{length, drop, take, All, Any, IsTrue, IsErr, IfOk, IfErr};
ghost use Rattle.std.specs.Prelude.{IfSome, IfNone, MatchOption, MatchResult, slice_get, Some};
ghost use Rattle.br_base.specs.declared.failure.OrMemory.TheVariants.{Memory};
ghost use Rattle.br_words.specs.declared.layout.Layout.{Layout};
ghost use Rattle.br_words.specs.declared.layout.Layout.TheVariants.{Two};
ghost use Rattle.br_words.specs.Layout.{most_words};
ghost use Rattle.br_image.specs.declared.images.Entry.{Entry};
ghost use Rattle.br_image.specs.declared.images.Image.{Image};
ghost use Rattle.br_image.specs.declared.lines.Line.TheVariants.{Header};
ghost use Rattle.br_image.specs.declared.faults.ImageFault.{ImageFault};
ghost use Rattle.br_image.specs.Text.{line};
ghost use Rattle.br_image.specs.Lines.{IsLine, line_text, text_of, lines_of};
ghost use Rattle.br_image.specs.Printed.{image_text};
ghost use Rattle.br_image.specs.Faults.{IsFault, IsOffset};
ghost use Rattle.br_base.specs.Faults.{IfFault};
ghost use Rattle.br_image.specs.Reading.{IsLineFault, EntriesRead, WordsRead, IsFirstBad};

use crate::faults::ImageFault;
use crate::images::{Entry, Image};
use crate::lines::Line;
use crate::parsing::{cut, parse_line};
use br_base::OrMemory;
use br_words::Layout;
use sqlite_items::Items;
use std::alloc::Global;
use std::collections::BTreeSet;

// The line that begins at a place of a text whose layout is this, and the place after it.
fn line_at(
    alloc: Global,
    layout: Layout,
    text: &[u8],
    at: usize,
    number: u32,
) -> Result<(Line, usize), OrMemory<ImageFault>>
    requires { at ≤ length text.now }
    ensures form { IfOk result (λ p. IsLine layout p.0) }
    ensures found { IfOk result
        (λ p. drop at text.now ≡ line (line_text p.0) ++ drop p.1 text.now) }
    ensures place { IfOk result (λ p. (at < p.1) × (p.1 ≤ length text.now)) }
    ensures refused { IfErr result (λ e. IfFault e (IsLineFault layout number (drop at text.now))) }
{
    let Some((bytes, _)) = cut(&text[at..], b'\n') else {
        return Err(OrMemory::Fault(ImageFault::Truncated(number)));
    };
    match parse_line(alloc, layout, bytes)? {
        None => Err(OrMemory::Fault(ImageFault::BadLine(number))),
        Some(line) => Ok((line, at + bytes.len() + 1)),
    }
}

/// What stands before the words of code.
#[derive(Debug, Drop)]
struct Head {
    entries: Items<Entry>,
    count: u32,
    /// Where the lines of words begin.
    at: usize,
}

// The entries and the number of words, from the place after the first line.
fn read_head(
    alloc: Global,
    layout: Layout,
    text: &[u8],
    start: usize,
) -> Result<Head, OrMemory<ImageFault>>
    requires begun { EntriesRead layout text.now [] start }
    requires short { length text.now ≤ 1073741824 }
    ensures read { IfOk result (λ h. WordsRead layout text.now h.entries h.count [] h.at) }
    ensures refused { IfErr result (λ e. IfFault e (IsFault text.now)) }
{
    let mut entries = Items::new(alloc);
    let mut names = BTreeSet::new(alloc);
    let mut at = start;
    loop {
        let number = entries.len() as u32 + 2;
        let (line, next) = line_at(alloc, layout, text, at, number)?;
        at = next;
        match line {
            Line::Function(entry) => {
                if !names.insert(Vec::from_slice(alloc, entry.name.bytes())?)? {
                    return Err(OrMemory::Fault(ImageFault::BadOrder(number)));
                }
                entries.push(entry)?;
            }
            Line::Count(count) => return Ok(Head { entries, count, at }),
            _ => return Err(OrMemory::Fault(ImageFault::BadOrder(number))),
        }
    }
}

// The words of code that stand after the head, and where they end.
fn read_words(
    alloc: Global,
    layout: Layout,
    text: &[u8],
    head: &Head,
) -> Result<(Items<u32>, usize), OrMemory<ImageFault>>
    requires begun { WordsRead layout text.now head.now.entries head.now.count [] head.now.at }
    requires short { length text.now ≤ 1073741824 }
    ensures read { IfOk result
        (λ p. WordsRead layout text.now head.now.entries head.now.count p.0 p.1) }
    ensures all { IfOk result (λ p. length p.0 ≡ head.now.count) }
    ensures refused { IfErr result (λ e. IfFault e (IsFault text.now)) }
{
    let mut code = Items::new(alloc);
    let mut at = head.at;
    for i in 0..head.count {
        let number = head.entries.len() as u32 + i + 3;
        let (line, next) = line_at(alloc, layout, text, at, number)?;
        let Line::Word(word) = line else {
            return Err(OrMemory::Fault(ImageFault::BadOrder(number)));
        };
        code.push(word)?;
        at = next;
    }
    Ok((code, at))
}

// The line `end`, with nothing after it, where all words were read.
fn read_end(
    alloc: Global,
    layout: Layout,
    text: &[u8],
    entries: &[Entry],
    code: &[u32],
    at: usize,
) -> Result<(), OrMemory<ImageFault>>
    requires begun { WordsRead layout text.now entries.now (length code.now) code.now at }
    requires short { length text.now ≤ 1073741824 }
    ensures read { IfOk result (λ _. text.now ≡ text_of (lines_of layout entries.now code.now)) }
    ensures refused { IfErr result (λ e. IfFault e (IsFault text.now)) }
{
    let number = (entries.len() + code.len()) as u32 + 3;
    let (line, next) = line_at(alloc, layout, text, at, number)?;
    let Line::End = line else {
        return Err(OrMemory::Fault(ImageFault::BadOrder(number)));
    };
    if next < text.len() {
        return Err(OrMemory::Fault(ImageFault::BadOrder(number + 1)));
    }
    Ok(())
}

// The first entry whose offset is not in the code of so many words.
fn bad_offset(entries: &[Entry], words: usize) -> Option<usize>
    requires { words ≤ most_words Two }
    ensures none { IfNone result (All (λ e. IsOffset words e.offset) entries.now) }
    ensures found { IfSome result (λ k. IsFirstBad words entries.now k) }
    ensures within { IfSome result (λ k. k < length entries.now) }
{
    let end = 4 * words as u32;
    entries
        .iter()
        .position(|entry| entry.offset % 4 != 0 || entry.offset >= end)
}

/// The image that a text is the text of. The text has at most 1,073,741,824 bytes, so that the
/// numbers of its lines fit.
///
/// Every text that is not the text of an image has one fault, and is refused for that fault.
pub fn read(alloc: Global, text: &[u8]) -> Result<Image, OrMemory<ImageFault>>
    requires { length text.now ≤ 1073741824 }
    // What is read has this text, and what is refused has the fault.
    ensures image { IfOk result (λ i. text.now ≡ image_text i) }
    ensures refused { IfErr result (λ e. IfFault e (IsFault text.now)) }

    // The text of an image is read as that image, and a text with a fault is refused for it,
    // unless there is no memory.
    ensures each_image { (i : Image) → text.now ≡ image_text i →
        MatchResult result (λ j. j ≡ i) (λ e. e ≡ Memory) }
    ensures each_fault { (f : ImageFault) → IsFault text.now f →
        MatchResult result (λ _. ⊥) (λ e. IfFault e (λ g. g ≡ f)) }
{
    read_image(alloc, text)
}

// The image that a text is the text of, or the fault.
fn read_image(alloc: Global, text: &[u8]) -> Result<Image, OrMemory<ImageFault>>
    requires { length text.now ≤ 1073741824 }
    ensures image { IfOk result (λ i. text.now ≡ image_text i) }
    ensures refused { IfErr result (λ e. IfFault e (IsFault text.now)) }
{
    let (line, at) = line_at(alloc, Layout::Two, text, 0, 1)?;
    let Line::Header(layout) = line else {
        return Err(OrMemory::Fault(ImageFault::BadOrder(1)));
    };
    let head = read_head(alloc, layout, text, at)?;
    let (code, at) = read_words(alloc, layout, text, &head)?;
    let Head { entries, .. } = head;
    read_end(alloc, layout, text, entries.as_slice(), code.as_slice(), at)?;
    match bad_offset(entries.as_slice(), code.len()) {
        Some(place) => Err(OrMemory::Fault(ImageFault::BadOffset(place as u32 + 2))),
        None => Ok(Image {
            layout,
            entries,
            code,
        }),
    }
}
