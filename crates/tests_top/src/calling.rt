// The top call as the tests call it: a command, its input, and ends that fail at a call.

use br_base::{MemSink, MemSource, Status};
use br_top::tool;
use std::alloc::{AllocError, Global};
use std::test::Fail;

/// How many bytes a sink has room for, where no case names a number.
pub(crate) const ROOM: usize = 16_777_216;

/// How many bytes a read or a write moves at most.
pub(crate) const MOST: usize = 8;

/// One function that writes a word of a device.
pub(crate) const WRITES_A_WORD: &[u8] =
    b"(fn main () () (interact () MMIOWRITE 0x1001200C (add 5 7)))";

/// The number of the call at which each end fails, if it does.
#[derive(Clone, Copy)]
pub(crate) struct Failing {
    pub(crate) input: Option<u64>,
    pub(crate) out: Option<u64>,
    pub(crate) err: Option<u64>,
}

pub(crate) const NEVER: Failing = Failing {
    input: None,
    out: None,
    err: None,
};

fn numbers(alloc: Global, number: Option<u64>) -> Result<Vec<u64>, AllocError> {
    let mut numbers = Vec::new(alloc);
    if let Some(number) = number {
        numbers.push(number)?;
    }
    Ok(numbers)
}

/// What a command answers for an input, and what the output and standard error hold then.
pub(crate) fn answer(
    alloc: Global,
    word: &str,
    bytes: &[u8],
    failing: Failing,
) -> Result<(Status, MemSink, MemSink), Fail> {
    let words = [String::from_str(alloc, word)?];
    let bytes = bytes.to_vec(alloc)?;
    let mut input = MemSource::new(bytes, MOST, numbers(alloc, failing.input)?);
    let mut out = MemSink::new(alloc, ROOM, MOST, numbers(alloc, failing.out)?)?;
    let mut err = MemSink::new(alloc, ROOM, MOST, numbers(alloc, failing.err)?)?;
    let status = tool(alloc, &words, &mut input, &mut out, &mut err);
    Ok((status, out, err))
}

/// A text of these parts, the second so many times and the third so many times.
pub(crate) fn repeated(
    alloc: Global,
    first: &[u8],
    (second, times): (&[u8], usize),
    closing: usize,
) -> Result<Vec<u8>, AllocError> {
    let mut text = first.to_vec(alloc)?;
    for _ in 0..times {
        text.extend_from_slice(second)?;
    }
    for _ in 0..closing {
        text.push(b')')?;
    }
    Ok(text)
}
