// What a run takes from outside, and what it shows of itself.

use sqlite_items::Items;

/// A read or a write of a device word: its address, and the value that was read or written.
#[derive(Clone, Copy, Debug, PartialEq, Eq)]
pub enum Event {
    /// A read.
    Read(u32, u32),
    /// A write.
    Write(u32, u32),
}

/// A buffer that a run is given: where it begins, and the bytes that it holds at first.
#[derive(Debug, Drop)]
pub struct Choice {
    pub addr: u32,
    pub bytes: Items<u8>,
}

/// How a call ended.
#[derive(Debug, Drop)]
pub enum Outcome {
    /// It returned these words.
    Done(Items<u32>),
    /// It reads the device word at this address, and no answer is left.
    Waiting(u32),
    /// It was to begin one more turn of a loop or one more call than its fuel allows.
    OutOfFuel,
    /// It did what the language gives no meaning.
    Undefined,
    /// It was to take a buffer, and no choice is left or the next is none that it can take.
    NoChoice,
}
