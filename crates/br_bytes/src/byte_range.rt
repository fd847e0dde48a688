// Bytes at consecutive addresses, as a memory keeps them.

ghost use Rattle.std.specs.Prelude.{◌≡◌, ◌^◌, ◌<◌, ◌≤◌, OnOk, OnErr};
ghost use Rattle.br_bytes.specs.Range.{end_of, byte_in};
ghost use Rattle.br_bytes.specs.Changes.{lengthened, range_to, range_from, set_in};

use br_base::NoMemory;
use std::marker::Model;

/// Bytes at consecutive addresses.
#[derive(Debug, Drop)]
pub struct ByteRange {
    start: u32,
    bytes: Vec<u8>,
}

impl Model for ByteRange {
    ghost use Rattle.br_bytes.specs.Range.{Range};

    ghost Value = { Range };

    ghost view = { λ r. record { start = r.start; bytes = r.bytes.items } };
}

impl ByteRange {
    /// The range of these bytes from `start` on.
    pub(crate) fn new(start: u32, bytes: Vec<u8>) -> ByteRange
        ensures { result ≡ record { start = start; bytes = bytes.items } }
    {
        ByteRange { start, bytes }
    }

    /// The first address.
    pub(crate) fn start(&self) -> u32
        ensures { result ≡ self.now.start }
    {
        self.start
    }

    /// The address after the last byte.
    pub(crate) fn end(&self) -> u64
        requires { end_of self.now ≤ 2 ^ 32 }
        ensures { result ≡ end_of self.now }
    {
        u64::from(self.start) + self.bytes.as_slice().len() as u64
    }

    pub(crate) fn bytes(&self) -> &[u8]
        ensures { result.now ≡ self.now.bytes }
    {
        self.bytes.as_slice()
    }

    /// The byte at an address, if there is one.
    pub(crate) fn byte(&self, a: u32) -> Option<u8>
        ensures { result ≡ byte_in self.now a }
    {
        if a < self.start {
            return None;
        }
        self.bytes.get((a - self.start) as usize).copied()
    }

    /// Puts a byte at an address that has one.
    pub(crate) fn put(&mut self, a: u32, b: u8)
        requires above { self.old.start ≤ a }
        requires below { a < end_of self.old }
        ensures { self.new ≡ set_in self.old a b }
    {
        let i = (a - self.start) as usize;
        self.bytes[i] = b;
    }

    /// Adds bytes after the last.
    pub(crate) fn lengthen(&mut self, bytes: &[u8]) -> Result<(), NoMemory>
        ensures ok { OnOk result (self.new ≡ lengthened self.old bytes.now) }
        ensures err { OnErr result (self.new ≡ self.old) }
    {
        self.bytes.extend_from_slice(bytes)?;
        Ok(())
    }

    /// Keeps what stands below an address.
    pub(crate) fn end_at(&mut self, a: u32)
        requires { self.old.start ≤ a }
        ensures { self.new ≡ range_to a self.old }
    {
        let n = (a - self.start) as usize;
        self.bytes.truncate(n);
    }

    /// Keeps what stands from an address on.
    pub(crate) fn start_at(&mut self, a: u32)
        requires above { self.old.start ≤ a }
        requires below { a ≤ end_of self.old }
        ensures { self.new ≡ range_from a self.old }
    {
        let n = (a - self.start) as usize;
        drop(self.bytes.drain(0..n));
        self.start = a;
    }
}
