// The text of an image.

ghost use Rattle.std.specs.Prelude.{◌≡◌, ◌++◌, ◌∷◌, [], ◌<◌, IfOk, OnOk};
ghost use Rattle.std.specs.Fmt.{decimal};
ghost use Rattle.br_image.specs.Text.{header_text, entry_text, word_text, line};
ghost use Rattle.br_image.specs.Printed.{entry_lines, word_lines, image_text};

use crate::images::{Entry, Image};
use br_base::NoMemory;
use br_words::Layout;
use std::alloc::Global;

/// The text of an image: `brimage 1` for layout One or `brimage 2` for layout Two, a line
/// `entry NAME ARGS RESULTS OFFSET NEED` for each function, `code N`, the N words of code in a
/// line each, and `end`. Each line ends in one line feed. Numbers are decimal, and words are
/// eight hexadecimal digits in lower case.
#[tactic(auto, unfolding(crate::specs::Printed::image_text))]
pub fn print(alloc: Global, image: &Image) -> Result<Vec<u8>, NoMemory>
    ensures { IfOk result (λ text. text.items ≡ image_text image.now) }
{
    let mut text = Vec::new(alloc);
    print_header(&mut text, image.layout)?;
    print_entries(alloc, &mut text, image.entries.as_slice())?;
    text.extend_from_slice(b"code ")?;
    print_number(alloc, &mut text, image.code.len())?;
    text.push(b'\n')?;
    print_words(&mut text, image.code.as_slice())?;
    text.extend_from_slice(b"end\n")?;
    Ok(text)
}

fn print_header(text: &mut Vec<u8>, layout: Layout) -> Result<(), NoMemory>
    ensures { OnOk result (text.new.items ≡ text.old.items ++ line (header_text layout)) }
{
    match layout {
        Layout::One => text.extend_from_slice(b"brimage 1\n")?,
        Layout::Two => text.extend_from_slice(b"brimage 2\n")?,
    }
    Ok(())
}

fn print_entries(alloc: Global, text: &mut Vec<u8>, entries: &[Entry]) -> Result<(), NoMemory>
    ensures { OnOk result (text.new.items ≡ text.old.items ++ entry_lines entries.now) }
{
    for entry in entries {
        print_entry(alloc, text, entry)?;
    }
    Ok(())
}

fn print_entry(alloc: Global, text: &mut Vec<u8>, entry: &Entry) -> Result<(), NoMemory>
    ensures { OnOk result (text.new.items ≡ text.old.items ++ line (entry_text entry.now)) }
{
    text.extend_from_slice(b"entry ")?;
    text.extend_from_slice(entry.name.bytes())?;
    print_field(alloc, text, entry.args)?;
    print_field(alloc, text, entry.results)?;
    print_field(alloc, text, entry.offset)?;
    print_field(alloc, text, entry.need)?;
    text.push(b'\n')?;
    Ok(())
}

fn print_field(alloc: Global, text: &mut Vec<u8>, n: u32) -> Result<(), NoMemory>
    ensures { OnOk result (text.new.items ≡ text.old.items ++ 32 ∷ decimal n) }
{
    text.push(b' ')?;
    print_number(alloc, text, n as usize)
}

fn print_number(alloc: Global, text: &mut Vec<u8>, n: usize) -> Result<(), NoMemory>
    ensures { OnOk result (text.new.items ≡ text.old.items ++ decimal n) }
{
    let digits = format!(in alloc; "{n}")?;
    text.extend_from_slice(digits.as_bytes())?;
    Ok(())
}

fn print_words(text: &mut Vec<u8>, words: &[u32]) -> Result<(), NoMemory>
    ensures { OnOk result (text.new.items ≡ text.old.items ++ word_lines words.now) }
{
    for word in words {
        text.extend_from_slice(&word_digits(*word))?;
        text.push(b'\n')?;
    }
    Ok(())
}

/// The eight hexadecimal digits of a word, in lower case.
pub fn word_digits(word: u32) -> [u8; 8]
    ensures { result ≡ word_text word }
{
    let mut digits = [0u8; 8];
    let _written = hex::encode_to_slice(word.to_be_bytes(), &mut digits);
    digits
}
