// The machine as a call begins.

ghost use Rattle.std.specs.Prelude.{◌≡◌, ◌↔◌, ℕ, ◌+◌, ◌-◌, ◌*◌, ◌%◌, ◌<◌, ◌≤◌, Bool};
ghost use Rattle.std.specs.Prelude.{true, false, length, is_some, slice_index};
ghost use Rattle.std.specs.Prelude.{slice_index_or, None, IfOk, IsSome};
ghost use Rattle.std.specs.FinMap as finite;
ghost use Rattle.br_words.specs.Layout.{code_base, code_end, most_words};
ghost use Rattle.br_bytes.specs.Memory.{Memory};
ghost use Rattle.br_machine.specs.State.{ram_size};
ghost use Rattle.br_machine.specs.Start.{IsInData, start, start_ram, with_words};
ghost use Rattle.br_machine.specs.Junk.{junk_of};
ghost use Rattle.br_machine.specs.Pages.{HasAddressIn, is_made, page_count, page_size};
ghost use Rattle.br_machine.specs.Kept.{byte_at, first_byte, in_page, start_byte};

use crate::machine::Machine;
use crate::main_memory::Ram;
use crate::pages::{PAGE_SIZE, Page, first_byte};
use br_base::NoMemory;
use br_bytes::ByteMap;
use br_words::{DATA_BASE, Layout, STACK_BASE};
use std::alloc::Global;

// The byte at a place, with the memory over it.
fn start_byte(layout: Layout, code: &[u32], memory: &ByteMap, junk: u32, place: u32) -> u8
    requires { place < ram_size layout }
    ensures { result ≡ start_byte layout code.now memory.now junk place }
{
    match memory.byte(layout.ram_base() + place) {
        Some(byte) => byte,
        None => first_byte(layout, code, junk, place),
    }
}

// Whether one of the addresses of a page has a byte. All of them are in the data region.
fn has_address(memory: &ByteMap, base: u32) -> bool
    requires data { IsInData memory.now }
    requires inside { base + page_size ≤ 4294967295 }
    ensures some { result ≡ true →
        (a : ℕ) × (base ≤ a) × (a < base + page_size) × IsSome (finite.get memory.now a) }
    ensures none { result ≡ false → (a : ℕ) → base ≤ a → a < base + page_size →
        finite.get memory.now a ≡ None }
{
    if base + PAGE_SIZE <= DATA_BASE || STACK_BASE <= base {
        return false;
    }
    for i in 0..PAGE_SIZE {
        if memory.byte(base + i).is_some() {
            return true;
        }
    }
    false
}

// The bytes of a page, with the memory over them.
fn filled_page(layout: Layout, code: &[u32], memory: &ByteMap, junk: u32, page: u32) -> [u8; 4096]
    requires { page < page_count layout }
    ensures { (i : ℕ) → i < page_size →
        slice_index result i ≡ start_byte layout code.now memory.now junk (page_size * page + i) }
{
    let mut bytes = [0; 4096];
    for i in 0..PAGE_SIZE {
        bytes[i as usize] = start_byte(layout, code, memory, junk, PAGE_SIZE * page + i);
    }
    bytes
}

// A page at the start, which is made where the memory has one of its addresses.
fn start_page(layout: Layout, code: &[u32], memory: &ByteMap, junk: u32, page: u32) -> Page
    requires data { IsInData memory.now }
    requires inside { page < page_count layout }
    ensures bytes { (i : ℕ) → i < page_size →
        in_page result i (first_byte layout code.now junk (page_size * page + i))
        ≡ start_byte layout code.now memory.now junk (page_size * page + i) }
    ensures made { (is_some result ≡ true) ↔ HasAddressIn memory.now layout page }
{
    if has_address(memory, layout.ram_base() + PAGE_SIZE * page) {
        Some(filled_page(layout, code, memory, junk, page))
    } else {
        None
    }
}

// The pages at the start, with room for each.
fn start_pages(
    alloc: Global,
    layout: Layout,
    code: &[u32],
    memory: &ByteMap,
    junk: u32,
) -> Result<Vec<Page>, NoMemory>
    requires { IsInData memory.now }
    ensures count { IfOk result (λ pages. length pages.items ≡ page_count layout) }
    ensures bytes { IfOk result (λ pages. (place : ℕ) → place < ram_size layout →
        byte_at layout code.now junk pages.items place
        ≡ start_byte layout code.now memory.now junk place) }
    ensures made { IfOk result (λ pages. (page : ℕ) → page < page_count layout →
        (is_some (slice_index_or pages.items page None) ≡ true)
        ↔ HasAddressIn memory.now layout page) }
{
    let count = (layout.ram_end() - layout.ram_base()) / PAGE_SIZE;
    let mut pages = Vec::with_capacity(alloc, count as usize)?;
    for page in 0..count {
        pages.push(start_page(layout, code, memory, junk, page))?;
    }
    Ok(pages)
}

// RAM as a call begins.
fn start_ram(
    alloc: Global,
    layout: Layout,
    code: &[u32],
    memory: &ByteMap,
    junk: u32,
) -> Result<Ram, NoMemory>
    requires words { length code.now ≤ most_words layout }
    requires memory { IsInData memory.now }
    ensures layout { IfOk result (λ r. r.layout ≡ layout) }
    ensures code { IfOk result (λ r. r.code ≡ code.now) }
    ensures bytes { IfOk result
        (λ r. r.bytes ≡ start_ram layout code.now memory.now (junk_of junk)) }
    ensures made { IfOk result (λ r. (page : ℕ) → page < page_count layout →
        (slice_index_or r.made page false ≡ true) ↔ HasAddressIn memory.now layout page) }
{
    let pages = start_pages(alloc, layout, code, memory, junk)?;
    let mut words = Vec::with_capacity(alloc, code.len())?;
    words.extend_from_slice(code)?;
    Ok(Ram::of(layout, words, junk, pages))
}

// The arguments stand in register 10 and those after it.
fn set_arguments(registers: &mut [u32], args: &[u32])
    requires { 10 + length args.now ≤ length registers.old }
    ensures { registers.new ≡ with_words 10 args.now registers.old }
{
    for (i, arg) in args.iter().enumerate() {
        registers[10 + i] = *arg;
    }
}

impl Machine {
    /// The machine as a call begins: pc is `entry` bytes into the code, the arguments stand in x10,
    /// x11 and so on, x0 is 0, and RAM has the code, zeros after it in the code region, and the
    /// memory. Every other register holds the leftover word, and every other byte of the data
    /// region and of the stack region is the word's at its address modulo 4, the lowest first. The
    /// pages that have an address of the memory are made, and no others.
    ///
    /// At most the layout's words of code; `entry` a multiple of 4 below the size of the code
    /// region; at most eight arguments; each address of the memory in the data region.
    pub fn start(
        alloc: Global,
        layout: Layout,
        code: &[u32],
        entry: u32,
        args: &[u32],
        memory: &ByteMap,
        junk: u32,
    ) -> Result<Machine, NoMemory>
        requires words { length code.now ≤ most_words layout }
        requires entry { entry < code_end layout - code_base layout }
        requires aligned { entry % 4 ≡ 0 }
        requires args { length args.now ≤ 8 }
        requires memory { IsInData memory.now }
        ensures state { IfOk result (λ m.
            m.state ≡ start layout code.now entry args.now memory.now (junk_of junk)) }
        ensures made { IfOk result (λ m. (page : ℕ) → page < page_count layout →
            (is_made m page ≡ true) ↔ HasAddressIn memory.now layout page) }
    {
        let ram = start_ram(alloc, layout, code, memory, junk)?;
        ram.well_formed();
        let mut registers = [junk; 32];
        registers[0] = 0;
        set_arguments(&mut registers, args);
        Ok(Machine::of(registers, layout.code_base() + entry, ram))
    }
}
