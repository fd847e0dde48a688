// Ends that never fail.

ghost use Rattle.std.specs.Prelude.{◌≡◌, ℕ, ◌+◌, ◌≤◌, ◌<◌, ◌++◌, List, [], length};
ghost use Rattle.std.specs.Prelude.{take, drop, min, IfOk, IsOk, IsOkAnd, None, Some};
ghost use Rattle.std.specs.Io.KnownBytes.{Appends, Consumes, IsAtEnd, Keeps};
ghost use Rattle.br_base.specs.Ends.{Rose, last_count};

use crate::failure::Failed;
use crate::sink::Sink;
use crate::source::Source;
use std::marker::Model;

/// A source that gives the bytes of a list, as many as there is room for at each read. Contracts
/// see the list of the bytes that are left.
#[derive(Drop)]
pub struct SureSource {
    bytes: Vec<u8>,
    next: usize,
}

impl Model for SureSource {
    ghost use Rattle.std.specs.Prelude.{ℕ, List, drop, length, ◌≤◌};

    ghost Value = { List ℕ };

    ghost view = { λ s. drop s.next s.bytes.items };

    ghost invariant = { λ s. s.next ≤ length s.bytes.items };
}

impl SureSource {
    /// A source of these bytes.
    pub fn new(bytes: Vec<u8>) -> SureSource
        ensures { result ≡ bytes.items }
    {
        SureSource { bytes, next: 0 }
    }
}

impl Source for SureSource {
    ghost left = { λ s. Some s };

    ghost faults = { λ _. 0 };

    fn read(&mut self, buf: &mut [u8]) -> Result<usize, Failed>
        ensures moved { result ≡ Ok (min (length buf.old) (length self.old)) }
        ensures given { buf.new ≡ take (length buf.old) self.old ++ drop (length self.old) buf.old }
        ensures left { self.new ≡ drop (length buf.old) self.old }
    {
        let n = buf.len().min(self.bytes.len() - self.next);
        buf[..n].copy_from_slice(&self.bytes[self.next..self.next + n]);
        self.next += n;
        Ok(n)
    }
}

/// A sink that takes every byte of each piece, and keeps none.
#[derive(Clone, Copy, Debug, Default, PartialEq, Eq)]
pub struct SureSink;

impl SureSink {
    /// The sink.
    pub fn new() -> SureSink {
        SureSink
    }
}

impl Sink for SureSink {
    ghost held = { λ _. None };

    ghost faults = { λ _. 0 };

    fn write(&mut self, piece: &[u8]) -> Result<usize, Failed>
        ensures { result ≡ Ok (length piece.now) }
    {
        Ok(piece.len())
    }
}
