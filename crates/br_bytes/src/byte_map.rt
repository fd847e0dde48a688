// A memory that a program keeps: a finite map from addresses to bytes.

ghost use Rattle.std.specs.Prelude.{◌≡◌, ℕ, ◌+◌, ◌-◌, ◌^◌, ◌<◌, ◌≤◌, length, false, Some};
ghost use Rattle.std.specs.Prelude.{None, IfSome, is_some, IsTrue, Err, IfOk, OnOk, OnErr};
ghost use Rattle.br_base.specs.declared.failure.OrMemory.TheVariants.{Fault};
ghost use Rattle.std.specs.Bool.{OnTrue, OnFalse};
ghost use Rattle.br_bytes.specs.Number.{low_bytes};
ghost use Rattle.std.specs.FinMap as map;
ghost use Rattle.br_words.specs.Size.{size_of};
ghost use Rattle.br_bytes.specs.declared.byte_map.Overlap.{Overlap};
ghost use Rattle.br_bytes.specs.Memory.{IsMemory, place, bytes_at};
ghost use Rattle.br_bytes.specs.Memory.{get_number, put_number, with_bytes};
ghost use Rattle.br_bytes.specs.Buffers.{are_free, without_range};
ghost use Rattle.br_bytes.specs.Range.{ranges, range_at, byte_of, AreApart};
ghost use Rattle.br_bytes.specs.Ranges.{IsFirstTaken, is_whole};

use crate::byte_range::ByteRange;
use crate::ranges::{add, byte_at, clear, covers, first_within, put_byte};
use br_base::{NoMemory, OrMemory};
use br_words::Size;
use std::alloc::Global;
use std::marker::Model;

/// The first address of a range that has a byte already.
#[derive(Clone, Copy, Debug, Drop, PartialEq, Eq)]
pub struct Overlap(pub u32);

/// A memory: bytes at some of the addresses below 2^32. Contracts see it as a finite map. It keeps
/// the maximal runs of consecutive addresses by rising address, each with its bytes in one piece:
/// an address is found by a binary search, and what is added or removed moves its own bytes, the
/// other ranges, and the bytes of a range that it cuts or that it joins to the one before.
#[derive(Debug, Drop)]
pub struct ByteMap {
    ranges: Vec<ByteRange>,
}

impl Model for ByteMap {
    ghost use Rattle.std.specs.FinMap as map;
    ghost use Rattle.std.specs.Coded.{coded_ℕ};
    ghost use Rattle.br_bytes.specs.Memory.{Memory, IsMemory};
    ghost use Rattle.br_bytes.specs.Range.{memory_of, AreApart};

    ghost Value = { Memory };

    ghost coded = { map.code coded_ℕ coded_ℕ };

    ghost view = { λ m. memory_of m.ranges.items };

    ghost invariant = { λ m. record {
      apart : AreApart 0 m.ranges.items;
      is_memory : IsMemory (memory_of m.ranges.items);
    } };
}

impl ByteMap {
    /// The memory with no byte.
    pub fn new(alloc: Global) -> ByteMap
        ensures { result ≡ map.empty }
    {
        ByteMap {
            ranges: Vec::new(alloc),
        }
    }

    /// The byte at an address, if there is one.
    pub fn byte(&self, a: u32) -> Option<u8>
        ensures { result ≡ map.get self.now a }
    {
        byte_at(self.ranges.as_slice(), a)
    }

    /// How many maximal runs of consecutive addresses there are. 0xFFFFFFFF and 0 are not
    /// consecutive.
    pub fn ranges(&self) -> u32
        ensures { result ≡ length (ranges self.now) }
    {
        self.ranges.as_slice().len() as u32
    }

    /// The first address of the i-th run, counted from 0 by rising address.
    pub fn range_start(&self, i: u32) -> u32
        requires { i < length (ranges self.now) }
        ensures { result ≡ (range_at self.now i).start }
    {
        self.ranges[i as usize].start()
    }

    /// The bytes of the i-th run, counted from 0 by rising address.
    pub fn range_bytes(&self, i: u32) -> &[u8]
        requires { i < length (ranges self.now) }
        ensures { result.now ≡ (range_at self.now i).bytes }
    {
        self.ranges[i as usize].bytes()
    }

    /// Each memory has bytes below 256 at addresses below 2^32. The call does nothing.
    pub fn is_memory(&self)
        ensures { IsMemory self.now }
    {
        let _ = &self.ranges;
    }

    /// The runs of a memory have its bytes, and between two of them an address is free. The call
    /// does nothing.
    pub fn runs_have_bytes(&self)
        ensures bytes { (q : ℕ) → map.get self.now q ≡ byte_of (ranges self.now) q }
        ensures apart { AreApart 0 (ranges self.now) }
    {
        let _ = &self.ranges;
    }

    /// The number in the bytes from `a` on, the lowest byte first, the addresses counted modulo
    /// 2^32. `None` exactly where one of the bytes is missing.
    pub fn read(&self, a: u32, size: Size) -> Option<u32>
        ensures { result ≡ get_number self.now a (size_of size) }
    {
        match size {
            Size::One => self.byte(a).map(u32::from),
            Size::Two => self.read_two(a),
            Size::Four => self.read_four(a),
        }
    }

    // Two bytes as a number.
    fn read_two(&self, a: u32) -> Option<u32>
        ensures { result ≡ get_number self.now a 2 }
    {
        let low = self.byte(a)?;
        let high = self.byte(a.wrapping_add(1))?;
        Some(u32::from(low) + 256 * u32::from(high))
    }

    // Four bytes as a number.
    fn read_four(&self, a: u32) -> Option<u32>
        ensures { result ≡ get_number self.now a 4 }
    {
        let first = self.byte(a)?;
        let second = self.byte(a.wrapping_add(1))?;
        let third = self.byte(a.wrapping_add(2))?;
        let fourth = self.byte(a.wrapping_add(3))?;
        let high = u32::from(third) + 256 * u32::from(fourth);
        Some(u32::from(first) + 256 * (u32::from(second) + 256 * high))
    }
}

impl ByteMap {
    // Puts a byte at an address that has one.
    fn replace(&mut self, a: u32, b: u8)
        requires { IsTrue (map.contains_key self.old a) }
        ensures { self.new ≡ map.insert self.old a b }
    {
        put_byte(&mut self.ranges, a, b);
    }

    // Puts the n low bytes of a number where there are bytes.
    fn replace_low(&mut self, a: u32, n: u32, v: u32)
        requires { IsTrue (is_whole self.old a n) }
        ensures { self.new ≡ with_bytes self.old a (low_bytes n v) }
    {
        if n == 0 {
            return;
        }
        self.replace_low(a.wrapping_add(1), n - 1, v / 256);
        self.replace(a, (v % 256) as u8);
    }

    /// Puts the low bytes of `v` from `a` on, the lowest first, the addresses counted modulo 2^32,
    /// and leaves all other bytes. False exactly where one of the bytes is missing, and then the
    /// memory stays as it is.
    pub fn write(&mut self, a: u32, size: Size, v: u32) -> bool
        ensures known { result ≡ is_some (put_number self.old a (size_of size) v) }
        ensures put { OnTrue result (put_number self.old a (size_of size) v ≡ Some self.new) }
        ensures same { OnFalse result (self.new ≡ self.old) }
    {
        let there = self.read(a, size).is_some();
        if there {
            self.replace_low(a, size.bytes(), v);
        }
        there
    }

    // The first of n addresses from `a` on that has a byte.
    fn first_taken(&self, a: u32, n: usize) -> Option<u32>
        requires { a + n ≤ 2 ^ 32 }
        ensures taken { IfSome result (IsFirstTaken self.now a n) }
        ensures free { result ≡ None → (q : ℕ) → a ≤ q → q < a + n → map.get self.now q ≡ None }
    {
        first_within(self.ranges.as_slice(), a, n)
    }

    /// Adds bytes from `a` on. `Overlap` comes exactly where one of the addresses has a byte
    /// already, with the first such address; after any refusal the memory is as before.
    pub fn add_range(&mut self, a: u32, bytes: &[u8]) -> Result<(), OrMemory<Overlap>>
        requires { a + length bytes.now ≤ 2 ^ 32 }
        ensures free { OnOk result (IsTrue (are_free self.old a bytes.now)) }
        ensures ok { OnOk result (self.new ≡ with_bytes self.old a bytes.now) }
        ensures taken { (o : Overlap) → result ≡ Err (Fault o) →
            are_free self.old a bytes.now ≡ false }
        ensures overlap { (o : Overlap) → result ≡ Err (Fault o) →
            IsFirstTaken self.old a (length bytes.now) o.0 }
        ensures err { OnErr result (self.new ≡ self.old) }
    {
        match self.first_taken(a, bytes.len()) {
            Some(at) => Err(OrMemory::Fault(Overlap(at))),
            None => Ok(self.add_free(a, bytes)?),
        }
    }

    // Adds bytes at addresses that have none.
    fn add_free(&mut self, a: u32, bytes: &[u8]) -> Result<(), NoMemory>
        requires within { a + length bytes.now ≤ 2 ^ 32 }
        requires free { IsTrue (are_free self.old a bytes.now) }
        ensures ok { OnOk result (self.new ≡ with_bytes self.old a bytes.now) }
        ensures err { OnErr result (self.new ≡ self.old) }
    {
        if bytes.is_empty() {
            return Ok(());
        }
        add(&mut self.ranges, a, bytes)
    }

    // Whether each of the n addresses from `a` on has a byte.
    fn is_whole(&self, a: u32, n: u32) -> bool
        requires { a + n ≤ 2 ^ 32 }
        ensures { result ≡ is_whole self.now a n }
    {
        n == 0 || covers(self.ranges.as_slice(), a, n)
    }

    /// Takes the n bytes from `a` on away. `Ok(false)` comes exactly where one of them is missing;
    /// then, and after a refusal, the memory is as before.
    pub fn remove_range(&mut self, a: u32, n: u32) -> Result<bool, NoMemory>
        requires { a + n ≤ 2 ^ 32 }
        ensures whole { IfOk result (λ whole. whole ≡ is_whole self.old a n) }
        ensures removed { IfOk result
            (λ whole. OnTrue whole (self.new ≡ without_range self.old a n)) }
        ensures same { IfOk result (λ whole. OnFalse whole (self.new ≡ self.old)) }
        ensures err { OnErr result (self.new ≡ self.old) }
    {
        let whole = self.is_whole(a, n);
        if whole {
            self.clear_range(a, n)?;
        }
        Ok(whole)
    }

    /// Takes whatever bytes there are among the n from `a` on away. Only bytes that have others on
    /// both sides take memory; after a refusal the memory is as before.
    pub fn clear_range(&mut self, a: u32, n: u32) -> Result<(), NoMemory>
        requires { a + n ≤ 2 ^ 32 }
        ensures ok { OnOk result (self.new ≡ without_range self.old a n) }
        ensures err { OnErr result (self.new ≡ self.old) }
    {
        if n == 0 {
            return Ok(());
        }
        clear(&mut self.ranges, a, u64::from(a) + u64::from(n))
    }
}
