// The lines of a listing.

ghost use Rattle.std.specs.Prelude.{◌≡◌, ◌∷◌, ◌++◌, [], IfOk, OnOk};
ghost use Rattle.std.specs.BTreeMap.{get};
ghost use Rattle.std.specs.Ordering.{nat_cmp};
ghost use Rattle.br_image.specs.Text.{word_text};
ghost use Rattle.br_listing.specs.Index.{bytes_or_none};
ghost use Rattle.br_listing.specs.Text.{word_line, text_or_word, list_text};
ghost use Rattle.br_rv32im.specs.Row.{row_of};

use crate::labels::labels_by_offset;
use br_base::NoMemory;
use br_image::{Image, word_digits};
use br_rv32im::{decode, listing};
use std::alloc::Global;
use std::collections::BTreeMap;

/// The listing of an image: for each word of code a line with its address, the word and its
/// instruction, as `80000004 0052a023 sw x5, 0(x5)`. Where the word is none of the instructions
/// that `br_rv32im` decodes, `.word` stands for the instruction. Before the line of a word stands a
/// line `NAME:` for each function that begins there, in the order of the entries. Addresses and
/// words are eight hexadecimal digits in lower case, and each line ends in one line feed. The first
/// word stands at the code base of the image's layout.
#[tactic(auto, unfolding(crate::specs::Text::list_text))]
pub fn list(alloc: Global, image: &Image) -> Result<Vec<u8>, NoMemory>
    ensures { IfOk result (λ text. text.items ≡ list_text image.now) }
{
    let labels = labels_by_offset(alloc, image.entries.as_slice())?;
    let base = image.layout.code_base();
    let mut text = Vec::new(alloc);
    for (place, word) in image.code.as_slice().iter().enumerate() {
        let offset = 4 * place as u32;
        list_labels(&mut text, &labels, offset)?;
        list_word(alloc, &mut text, base + offset, *word)?;
    }
    Ok(text)
}

// Adds the lines of the functions that begin at an offset.
fn list_labels(
    text: &mut Vec<u8>,
    labels: &BTreeMap<u32, Vec<u8>>,
    offset: u32,
) -> Result<(), NoMemory>
    ensures { OnOk result
        (text.new.items ≡ text.old.items ++ bytes_or_none (get nat_cmp labels.now offset)) }
{
    if let Some(lines) = labels.get(&offset) {
        text.extend_from_slice(lines)?;
    }
    Ok(())
}

// Adds the line of a word.
fn list_word(alloc: Global, text: &mut Vec<u8>, address: u32, word: u32) -> Result<(), NoMemory>
    ensures { OnOk result (text.new.items ≡ text.old.items ++ word_line address word) }
{
    list_digits(text, address)?;
    list_digits(text, word)?;
    list_instruction(alloc, text, word)?;
    text.push(b'\n')?;
    Ok(())
}

// Adds the digits of a word and a space.
fn list_digits(text: &mut Vec<u8>, word: u32) -> Result<(), NoMemory>
    ensures { OnOk result (text.new.items ≡ text.old.items ++ (word_text word ++ 32 ∷ [])) }
{
    text.extend_from_slice(&word_digits(word))?;
    text.push(b' ')?;
    Ok(())
}

// Adds the text of the instruction that a word is.
fn list_instruction(alloc: Global, text: &mut Vec<u8>, word: u32) -> Result<(), NoMemory>
    ensures { OnOk result (text.new.items ≡ text.old.items ++ text_or_word (row_of word)) }
{
    match decode(word) {
        Some(instruction) => text.extend_from_slice(&listing(alloc, instruction)?)?,
        None => text.extend_from_slice(b".word")?,
    }
    Ok(())
}
