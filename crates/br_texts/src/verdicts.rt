// The verdict on events.

ghost use Rattle.std.specs.Prelude.{◌≡◌, ◌++◌, length, IfOk, IfSome, IfNone};
ghost use Rattle.std.specs.Fmt.{decimal};
ghost use Rattle.br_image.specs.Text.{line};
ghost use Rattle.br_texts.specs.Verdict.{IsVerdict, Keeps, DepartsAfter};

use br_base::NoMemory;
use br_bytes::Event;
use br_judge::Judge;
use std::alloc::Global;

/// The verdict of the judge of the firmware's trace language: `prefix D` with the number of events
/// where it takes them all, or `departs D` with the number, from
/// 1, of the first that it does not take.
pub fn verdict(alloc: Global, events: &[Event]) -> Result<Vec<u8>, NoMemory>
    ensures { IfOk result (λ text. IsVerdict events.now text.items) }
{
    match first_departure(events) {
        None => number_line(alloc, "prefix ", events.len()),
        Some(kept) => number_line(alloc, "departs ", kept + 1),
    }
}

// How many events come before the first that departs from the language. None where none departs.
fn first_departure(events: &[Event]) -> Option<usize>
    ensures none { IfNone result (Keeps events.now (length events.now)) }
    ensures some { IfSome result (λ n. DepartsAfter events.now n) }
{
    let mut judge = Judge::new();
    let mut kept = 0usize;
    for event in events {
        if !judge.take(*event) {
            return Some(kept);
        }
        kept += 1;
    }
    None
}

// The line of a word, which ends in a space, and a number.
fn number_line(alloc: Global, word: &str, number: usize) -> Result<Vec<u8>, NoMemory>
    ensures { IfOk result (λ text. text.items ≡ line (word.now ++ decimal number)) }
{
    let digits = format!(in alloc; "{number}")?;
    let mut text = Vec::from_slice(alloc, word.as_bytes())?;
    text.extend_from_slice(digits.as_bytes())?;
    text.push(b'\n')?;
    Ok(text)
}
