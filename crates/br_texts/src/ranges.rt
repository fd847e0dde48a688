// The memory that a script gives, and what stands there afterwards.

ghost use Rattle.std.specs.Prelude.{◌≡◌, ℕ, ◌+◌, ◌<◌, ◌≤◌, length, None, IfOk, OnOk};
ghost use Rattle.std.specs.FinMap as map;
ghost use Rattle.br_words.specs.Layout.{data_base};
ghost use Rattle.br_bytes.specs.Memory.{with_bytes};
ghost use Rattle.br_machine.specs.Start.{IsInData};
ghost use Rattle.br_machine.specs.State.{byte_of};
ghost use Rattle.br_words.specs.Layout.{stack_base};
ghost use Rattle.br_texts.specs.Memory.{AreRanges, memory_of, values};

use br_base::{NoMemory, OrMemory};
use br_bytes::{ByteMap, Choice};
use br_machine::{Machine, memories_of_the_data_region};
use std::alloc::Global;

/// The memory with the bytes of these ranges. They lie in the data region, each at or after the end
/// of the one before it.
pub fn memory_of(alloc: Global, ranges: &[Choice]) -> Result<ByteMap, NoMemory>
    requires { AreRanges data_base ranges.now }
    ensures memory { IfOk result (λ m. m ≡ memory_of ranges.now) }
    ensures data { IfOk result (λ m. IsInData m) }
{
    memories_of_the_data_region();
    let mut memory = ByteMap::new(alloc);
    for range in ranges {
        add_range(&mut memory, range)?;
    }
    Ok(memory)
}

// Adds the bytes of a range to a memory that has none from its first address on.
fn add_range(memory: &mut ByteMap, range: &Choice) -> Result<(), NoMemory>
    requires within { range.now.addr + length range.now.bytes ≤ stack_base }
    requires free { (a : ℕ) → range.now.addr ≤ a → map.get memory.old a ≡ None }
    ensures { OnOk result (memory.new ≡ with_bytes memory.old range.now.addr range.now.bytes) }
{
    match memory.add_range(range.addr, range.bytes.as_slice()) {
        Ok(()) => Ok(()),
        Err(OrMemory::Memory) => Err(NoMemory),
        Err(OrMemory::Fault(_)) => unreachable!(),
    }
}

/// The bytes at `n` addresses of a machine's data region.
pub(crate) fn machine_bytes(
    alloc: Global,
    machine: &Machine,
    a: u32,
    n: u32,
) -> Result<Vec<u8>, NoMemory>
    requires low { data_base ≤ a }
    requires high { a + n ≤ stack_base }
    ensures { IfOk result (λ bytes. bytes.items ≡ values (byte_of machine.now.state) a n) }
{
    let mut bytes = Vec::new(alloc);
    for i in 0..n {
        bytes.push(machine_byte(machine, a + i))?;
    }
    Ok(bytes)
}

// The byte at an address of a machine's data region.
fn machine_byte(machine: &Machine, a: u32) -> u8
    requires low { data_base ≤ a }
    requires high { a < stack_base }
    ensures { result ≡ byte_of machine.now.state a }
{
    match machine.byte(a) {
        Some(byte) => byte,
        None => unreachable!(),
    }
}
