// The lines that show a run.

ghost use Rattle.std.specs.Prelude.{◌≡◌, ◌∷◌, ◌++◌, [], OnOk, codes};
ghost use Rattle.br_image.specs.Text.{word_text, line};
ghost use Rattle.br_texts.specs.Lines.{event_text, event_lines, trap_text};
ghost use Rattle.br_texts.specs.Lines.{end_text, outcome_text, bytes_line};
ghost use Rattle.br_image.specs.Fields.{word_fields};
ghost use Rattle.br_bytes.specs.Hexadecimal.{byte_text, bytes_text};

use br_base::NoMemory;
use br_bytes::{Event, Outcome};
use br_image::word_digits;
use br_machine::{End, Trap};

/// Adds a line for each event: `read W W` or `write W W`, with its address and its value in eight
/// hexadecimal digits.
pub fn push_events(text: &mut Vec<u8>, events: &[Event]) -> Result<(), NoMemory>
    ensures { OnOk result (text.new.items ≡ text.old.items ++ event_lines events.now) }
{
    for event in events {
        push_event(text, *event)?;
    }
    Ok(())
}

// Adds the line of an event.
fn push_event(text: &mut Vec<u8>, event: Event) -> Result<(), NoMemory>
    ensures { OnOk result (text.new.items ≡ text.old.items ++ line (event_text event)) }
{
    match event {
        Event::Read(a, v) => {
            text.extend_from_slice(b"read ")?;
            push_two_words(text, a, v)
        }
        Event::Write(a, v) => {
            text.extend_from_slice(b"write ")?;
            push_two_words(text, a, v)
        }
    }
}

// Adds two words and the end of a line.
fn push_two_words(text: &mut Vec<u8>, first: u32, second: u32) -> Result<(), NoMemory>
    ensures { OnOk result
        (text.new.items ≡ text.old.items ++ line (word_text first ++ 32 ∷ word_text second)) }
{
    text.extend_from_slice(&word_digits(first))?;
    text.push(b' ')?;
    push_last_word(text, second)
}

// Adds a word and the end of a line.
fn push_last_word(text: &mut Vec<u8>, word: u32) -> Result<(), NoMemory>
    ensures { OnOk result (text.new.items ≡ text.old.items ++ line (word_text word)) }
{
    text.extend_from_slice(&word_digits(word))?;
    text.push(b'\n')?;
    Ok(())
}

// Adds a field for each word and the end of a line.
fn push_last_words(text: &mut Vec<u8>, words: &[u32]) -> Result<(), NoMemory>
    ensures { OnOk result (text.new.items ≡ text.old.items ++ line (word_fields words.now)) }
{
    push_words(text, words)?;
    text.push(b'\n')?;
    Ok(())
}

// Adds a field for each word.
fn push_words(text: &mut Vec<u8>, words: &[u32]) -> Result<(), NoMemory>
    ensures { OnOk result (text.new.items ≡ text.old.items ++ word_fields words.now) }
{
    for word in words {
        text.push(b' ')?;
        text.extend_from_slice(&word_digits(*word))?;
    }
    Ok(())
}

/// Adds the line of the end of a run of an image: `halted` with the results, `waiting W`,
/// `trapped KIND W` with the pc, or `running`.
pub fn push_end(text: &mut Vec<u8>, results: &[u32], end: End) -> Result<(), NoMemory>
    ensures { OnOk result (text.new.items ≡ text.old.items ++ line (end_text results.now end)) }
{
    match end {
        End::Halted => {
            text.extend_from_slice(b"halted")?;
            push_last_words(text, results)
        }
        End::Waiting(a) => {
            text.extend_from_slice(b"waiting ")?;
            push_last_word(text, a)
        }
        End::Trapped(trap, pc) => {
            text.extend_from_slice(b"trapped ")?;
            text.extend_from_slice(trap_text(trap))?;
            text.push(b' ')?;
            push_last_word(text, pc)
        }
        End::Running => Ok(text.extend_from_slice(b"running\n")?),
    }
}

fn trap_text(trap: Trap) -> &'static [u8]
    ensures { result.now ≡ trap_text trap }
{
    match trap {
        Trap::Illegal => b"illegal",
        Trap::FetchOutside => b"fetchoutside",
        Trap::FetchMisaligned => b"fetchmisaligned",
        Trap::AccessOutside => b"accessoutside",
        Trap::DeviceAccess => b"deviceaccess",
        Trap::CodeWrite => b"codewrite",
    }
}

/// Adds the line of the end of a run of a source program: `done` with the results, `waiting W`,
/// `outoffuel`, `undefined` or `nochoice`.
pub fn push_outcome(text: &mut Vec<u8>, outcome: &Outcome) -> Result<(), NoMemory>
    ensures { OnOk result (text.new.items ≡ text.old.items ++ line (outcome_text outcome.now)) }
{
    match outcome {
        Outcome::Done(words) => {
            text.extend_from_slice(b"done")?;
            push_last_words(text, words.as_slice())
        }
        Outcome::Waiting(a) => {
            text.extend_from_slice(b"waiting ")?;
            push_last_word(text, *a)
        }
        Outcome::OutOfFuel => Ok(text.extend_from_slice(b"outoffuel\n")?),
        Outcome::Undefined => Ok(text.extend_from_slice(b"undefined\n")?),
        Outcome::NoChoice => Ok(text.extend_from_slice(b"nochoice\n")?),
    }
}

/// Adds the line of some bytes from an address on:
/// `mem W BYTES`, with two hexadecimal digits a byte.
pub fn push_bytes_line(text: &mut Vec<u8>, address: u32, bytes: &[u8]) -> Result<(), NoMemory>
    ensures { OnOk result (text.new.items ≡ text.old.items ++ bytes_line address bytes.now) }
{
    text.extend_from_slice(b"mem ")?;
    push_range_fields(text, address, bytes)
}

// Adds an address, the digits of bytes and the end of a line.
fn push_range_fields(text: &mut Vec<u8>, address: u32, bytes: &[u8]) -> Result<(), NoMemory>
    ensures { OnOk result
        (text.new.items ≡ text.old.items ++ line (word_text address ++ 32 ∷ bytes_text bytes.now)) }
{
    text.extend_from_slice(&word_digits(address))?;
    text.push(b' ')?;
    push_last_bytes(text, bytes)
}

// Adds the digits of bytes and the end of a line.
fn push_last_bytes(text: &mut Vec<u8>, bytes: &[u8]) -> Result<(), NoMemory>
    ensures { OnOk result (text.new.items ≡ text.old.items ++ line (bytes_text bytes.now)) }
{
    push_bytes(text, bytes)?;
    text.push(b'\n')?;
    Ok(())
}

// Adds the digits of bytes.
fn push_bytes(text: &mut Vec<u8>, bytes: &[u8]) -> Result<(), NoMemory>
    ensures { OnOk result (text.new.items ≡ text.old.items ++ bytes_text bytes.now) }
{
    for byte in bytes {
        push_byte(text, *byte)?;
    }
    Ok(())
}

fn push_byte(text: &mut Vec<u8>, byte: u8) -> Result<(), NoMemory>
    ensures { OnOk result (text.new.items ≡ text.old.items ++ byte_text byte) }
{
    let digits = word_digits(u32::from(byte));
    text.extend_from_slice(&digits[6..])?;
    Ok(())
}
