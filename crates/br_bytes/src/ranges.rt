// Ranges by rising address, as a memory keeps them.

ghost use Rattle.std.specs.Prelude.{◌≡◌, ℕ, ◌+◌, ◌-◌, ◌^◌, ◌<◌, ◌≤◌, ◌∷◌, ◌++◌};
ghost use Rattle.std.specs.Prelude.{length, take, drop, slice_index_or, None};
ghost use Rattle.std.specs.Prelude.{IfSome, is_some, IsTrue, IfOk, OnOk, OnErr};
ghost use Rattle.std.specs.Bool.{OnTrue, OnFalse};
ghost use Rattle.br_bytes.specs.Range.{Range, end_of, byte_of, AreApart};
ghost use Rattle.br_bytes.specs.Changes.{after, EndsFrom, lengthened, before, added, range_to};
ghost use Rattle.br_bytes.specs.Changes.{range_from, ranges_to, ranges_from, with_byte};

use crate::byte_range::ByteRange;
use br_base::NoMemory;
use std::alloc::Global;

/// The first range that ends at `at` or above, and how many ranges there are if none does.
pub(crate) fn first_ending(ranges: &[ByteRange], at: u64) -> usize
    requires { AreApart 0 ranges.now }
    ensures within { result ≤ length ranges.now }
    ensures below { after 0 (take result ranges.now) ≤ at }
    ensures above { EndsFrom at (drop result ranges.now) }
{
    let mut low = 0;
    let mut high = ranges.len();
    while low < high {
        let middle = low + (high - low) / 2;
        if ranges[middle].end() < at {
            low = middle + 1;
        } else {
            high = middle;
        }
    }
    low
}

/// The byte at an address, if there is one.
pub(crate) fn byte_at(ranges: &[ByteRange], a: u32) -> Option<u8>
    requires { AreApart 0 ranges.now }
    ensures { result ≡ byte_of ranges.now a }
{
    let i = first_ending(ranges, u64::from(a) + 1);
    if i == ranges.len() {
        return None;
    }
    ranges[i].byte(a)
}

/// The first of n addresses from `a` on that has a byte.
pub(crate) fn first_within(ranges: &[ByteRange], a: u32, n: usize) -> Option<u32>
    requires apart { AreApart 0 ranges.now }
    requires within { a + n ≤ 2 ^ 32 }
    ensures inside { IfSome result (λ at. (a ≤ at) × (at < a + n)) }
    ensures there { IfSome result (λ at. IsTrue (is_some (byte_of ranges.now at))) }
    ensures first { IfSome result (λ at.
        (q : ℕ) → a ≤ q → q < at → byte_of ranges.now q ≡ None) }
    ensures none { result ≡ None →
        (q : ℕ) → a ≤ q → q < a + n → byte_of ranges.now q ≡ None }
{
    let i = first_ending(ranges, u64::from(a) + 1);
    if n == 0 || i == ranges.len() {
        return None;
    }
    let start = ranges[i].start();
    if start <= a {
        return Some(a);
    }
    if u64::from(start) < u64::from(a) + n as u64 {
        return Some(start);
    }
    None
}

/// Whether one of the ranges has all of the n addresses from `a` on, of which there is one.
pub(crate) fn covers(ranges: &[ByteRange], a: u32, n: u32) -> bool
    requires apart { AreApart 0 ranges.now }
    requires some { 0 < n }
    ensures whole { OnTrue result (
        (q : ℕ) → a ≤ q → q < a + n → IsTrue (is_some (byte_of ranges.now q))) }
    ensures part { OnFalse result (
        (q : ℕ) × (a ≤ q) × (q < a + n) × (byte_of ranges.now q ≡ None)) }
{
    let i = first_ending(ranges, u64::from(a) + 1);
    if i == ranges.len() || a < ranges[i].start() {
        return false;
    }
    u64::from(a) + u64::from(n) <= ranges[i].end()
}

/// Puts a byte at an address that has one.
pub(crate) fn put_byte(ranges: &mut Vec<ByteRange>, a: u32, b: u8)
    requires apart { AreApart 0 ranges.old.items }
    requires there { IsTrue (is_some (byte_of ranges.old.items a)) }
    ensures { ranges.new.items ≡ with_byte a b ranges.old.items }
{
    let i = first_ending(ranges.as_slice(), u64::from(a) + 1);
    ranges[i].put(a, b);
}

// Two lists of bytes as one.
fn concatenation(alloc: Global, first: &[u8], second: &[u8]) -> Result<Vec<u8>, NoMemory>
    ensures { IfOk result (λ both. both.items ≡ first.now ++ second.now) }
{
    let mut both = Vec::from_slice(alloc, first)?;
    both.extend_from_slice(second)?;
    Ok(both)
}

// Puts a range before the i-th, as one with it where they touch.
fn put_before(ranges: &mut Vec<ByteRange>, i: usize, a: u32, bytes: &[u8]) -> Result<(), NoMemory>
    requires within { a + length bytes.now ≤ 2 ^ 32 }
    requires there { i ≤ length ranges.old.items }
    ensures ok { OnOk result (ranges.new.items ≡ take i ranges.old.items
        ++ before (record { start = a; bytes = bytes.now }) (drop i ranges.old.items)) }
    ensures err { OnErr result (ranges.new.items ≡ ranges.old.items) }
{
    let alloc = *ranges.allocator();
    let end = u64::from(a) + bytes.len() as u64;
    if i < ranges.len() && end == u64::from(ranges[i].start()) {
        let both = concatenation(alloc, bytes, ranges[i].bytes())?;
        ranges[i] = ByteRange::new(a, both);
        return Ok(());
    }
    let copy = Vec::from_slice(alloc, bytes)?;
    ranges.insert(i, ByteRange::new(a, copy))?;
    Ok(())
}

// Adds bytes after those of the i-th range, and makes it one with the next where they then touch.
fn put_after(ranges: &mut Vec<ByteRange>, i: usize, bytes: &[u8]) -> Result<(), NoMemory>
    requires there { i < length ranges.old.items }
    requires within { (d : Range) →
        end_of (slice_index_or ranges.old.items i d) + length bytes.now ≤ 2 ^ 32 }
    ensures ok { OnOk result ((d : Range) → ranges.new.items ≡ take i ranges.old.items
        ++ before (lengthened (slice_index_or ranges.old.items i d) bytes.now)
        (drop (i + 1) ranges.old.items)) }
    ensures err { OnErr result (ranges.new.items ≡ ranges.old.items) }
{
    let alloc = *ranges.allocator();
    let next = i + 1;
    let end = ranges[i].end() + bytes.len() as u64;
    if next < ranges.len() && end == u64::from(ranges[next].start()) {
        let more = concatenation(alloc, bytes, ranges[next].bytes())?;
        ranges[i].lengthen(more.as_slice())?;
        drop(ranges.remove(next));
        return Ok(());
    }
    ranges[i].lengthen(bytes)
}

/// Adds bytes at addresses that have none.
pub(crate) fn add(ranges: &mut Vec<ByteRange>, a: u32, bytes: &[u8]) -> Result<(), NoMemory>
    requires apart { AreApart 0 ranges.old.items }
    requires within { a + length bytes.now ≤ 2 ^ 32 }
    ensures ok { OnOk result (
        ranges.new.items ≡ added (record { start = a; bytes = bytes.now }) ranges.old.items) }
    ensures err { OnErr result (ranges.new.items ≡ ranges.old.items) }
{
    let i = first_ending(ranges.as_slice(), u64::from(a));
    if i < ranges.len() && ranges[i].end() == u64::from(a) {
        put_after(ranges, i, bytes)
    } else {
        put_before(ranges, i, a, bytes)
    }
}

// Takes the bytes from `a` up to `end` out of the i-th range, which has some on both sides.
fn split(ranges: &mut Vec<ByteRange>, i: usize, a: u32, end: u32) -> Result<(), NoMemory>
    requires there { i < length ranges.old.items }
    requires above { (d : Range) → (slice_index_or ranges.old.items i d).start ≤ a }
    requires ordered { a ≤ end }
    requires below { (d : Range) → end ≤ end_of (slice_index_or ranges.old.items i d) }
    ensures ok { OnOk result ((d : Range) → ranges.new.items ≡ take i ranges.old.items
        ++ range_to a (slice_index_or ranges.old.items i d)
        ∷ range_from end (slice_index_or ranges.old.items i d) ∷ drop (i + 1) ranges.old.items) }
    ensures err { OnErr result (ranges.new.items ≡ ranges.old.items) }
{
    let alloc = *ranges.allocator();
    let first = (end - ranges[i].start()) as usize;
    let rest = Vec::from_slice(alloc, &ranges[i].bytes()[first..])?;
    ranges.insert(i + 1, ByteRange::new(end, rest))?;
    ranges[i].end_at(a);
    Ok(())
}

// Takes n ranges away, from the i-th on.
fn drop_some(ranges: &mut Vec<ByteRange>, i: usize, n: usize)
    requires { i + n ≤ length ranges.old.items }
    ensures { ranges.new.items ≡ take i ranges.old.items ++ drop n (drop i ranges.old.items) }
{
    drop(ranges.drain(i..i + n));
}

// Takes what stands below `end` away, from the i-th range on.
fn drop_below(ranges: &mut Vec<ByteRange>, i: usize, end: u64)
    requires apart { AreApart 0 ranges.old.items }
    requires there { i ≤ length ranges.old.items }
    requires within { end ≤ 2 ^ 32 }
    ensures { ranges.new.items ≡ take i ranges.old.items
        ++ ranges_from end (drop i ranges.old.items) }
{
    let n = first_ending(&ranges.as_slice()[i..], end + 1);
    drop_some(ranges, i, n);
    if i < ranges.len() && u64::from(ranges[i].start()) < end {
        ranges[i].start_at(end as u32);
    }
}

// Takes what stands from `a` up to `end` away, from the i-th range on, which has nothing after it
// if it has something before it.
fn drop_between(ranges: &mut Vec<ByteRange>, i: usize, a: u32, end: u64)
    requires apart { AreApart 0 ranges.old.items }
    requires there { i < length ranges.old.items }
    requires within { end ≤ 2 ^ 32 }
    requires first { (d : Range) → a < end_of (slice_index_or ranges.old.items i d) }
    requires whole { (d : Range) → (slice_index_or ranges.old.items i d).start < a →
        end_of (slice_index_or ranges.old.items i d) ≤ end }
    ensures { ranges.new.items ≡ take i ranges.old.items
        ++ (ranges_to a (drop i ranges.old.items) ++ ranges_from end (drop i ranges.old.items)) }
{
    if ranges[i].start() < a {
        ranges[i].end_at(a);
        drop_below(ranges, i + 1, end);
    } else {
        drop_below(ranges, i, end);
    }
}

/// Takes whatever bytes there are from `a` up to `end` away.
pub(crate) fn clear(ranges: &mut Vec<ByteRange>, a: u32, end: u64) -> Result<(), NoMemory>
    requires apart { AreApart 0 ranges.old.items }
    requires ordered { a < end }
    requires within { end ≤ 2 ^ 32 }
    ensures ok { OnOk result (
        ranges.new.items ≡ ranges_to a ranges.old.items ++ ranges_from end ranges.old.items) }
    ensures err { OnErr result (ranges.new.items ≡ ranges.old.items) }
{
    let i = first_ending(ranges.as_slice(), u64::from(a) + 1);
    if i == ranges.len() {
        return Ok(());
    }
    if ranges[i].start() < a && end < ranges[i].end() {
        split(ranges, i, a, end as u32)
    } else {
        drop_between(ranges, i, a, end);
        Ok(())
    }
}
