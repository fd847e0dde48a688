// The pages that are made of RAM, and what stands where none is made. A place is counted from RAM's
// low end.

ghost use Rattle.std.specs.Prelude.{◌≡◌, ◌≢◌, ◌↔◌, ℕ, ◌+◌, ◌*◌, ◌/◌, ◌%◌, ◌<◌, ◌≤◌, Bool};
ghost use Rattle.std.specs.Prelude.{true, false, IsSome, length, map, is_some, slice_get};
ghost use Rattle.std.specs.Prelude.{slice_index, slice_index_or, slice_set, Some, None, ◌^◌};
ghost use Rattle.br_bytes.specs.Memory.{Memory};
ghost use Rattle.br_machine.specs.State.{ram_size};
ghost use Rattle.br_machine.specs.Start.{code_bytes};
ghost use Rattle.br_machine.specs.Pages.{page_count, page_size};
ghost use Rattle.br_machine.specs.Kept.{byte_at, bytes_in, first_byte, in_page, start_byte};

use br_words::Layout;

/// How many bytes a page has.
pub(crate) const PAGE_SIZE: u32 = 4096;

/// The bytes of a page, where it is made.
pub(crate) type Page = Option<[u8; 4096]>;

/// A word of the code.
pub(crate) fn word_of(code: &[u32], index: u32) -> u32
    requires { index < length code.now }
    ensures value { slice_get code.now index ≡ Some result }
    ensures small { result < 2 ^ 32 }
{
    code[index as usize]
}

// A byte of the code, the lowest byte of each word first; 0 after its end.
fn code_byte(code: &[u32], i: u32) -> u8
    ensures { result ≡ slice_index (code_bytes code.now) i }
{
    match code.get((i / 4) as usize) {
        Some(word) => word.to_le_bytes()[(i % 4) as usize],
        None => 0,
    }
}

/// The byte at a place where nothing was stored.
pub(crate) fn first_byte(layout: Layout, code: &[u32], junk: u32, place: u32) -> u8
    requires { place < ram_size layout }
    ensures { result ≡ first_byte layout code.now junk place }
{
    let a = layout.ram_base() + place;
    let base = layout.code_base();
    if base <= a && a - base < 4 * layout.most_words() {
        code_byte(code, a - base)
    } else {
        junk.to_le_bytes()[(a % 4) as usize]
    }
}

/// The byte at a place.
pub(crate) fn byte_at(layout: Layout, code: &[u32], junk: u32, pages: &[Page], place: u32) -> u8
    requires inside { place < ram_size layout }
    requires pages { length pages.now ≡ page_count layout }
    ensures { result ≡ byte_at layout code.now junk pages.now place }
{
    match &pages[(place / PAGE_SIZE) as usize] {
        Some(page) => page[(place % PAGE_SIZE) as usize],
        None => first_byte(layout, code, junk, place),
    }
}

// The bytes of a page in which nothing was stored.
fn first_page(layout: Layout, code: &[u32], junk: u32, page: u32) -> [u8; 4096]
    requires { page < page_count layout }
    ensures { (i : ℕ) → i < page_size →
        slice_index result i ≡ first_byte layout code.now junk (page_size * page + i) }
{
    let mut bytes = [0; 4096];
    for i in 0..PAGE_SIZE {
        bytes[i as usize] = first_byte(layout, code, junk, PAGE_SIZE * page + i);
    }
    bytes
}

// Makes a page, where it is not made, which changes no byte.
fn make(layout: Layout, code: &[u32], junk: u32, pages: &mut Vec<Page>, page: u32)
    requires inside { page < page_count layout }
    requires pages { length pages.old.items ≡ page_count layout }
    ensures bytes { (place : ℕ) → byte_at layout code.now junk pages.new.items place
        ≡ byte_at layout code.now junk pages.old.items place }
    ensures made { map is_some pages.new.items ≡ slice_set (map is_some pages.old.items) page true }
{
    if pages[page as usize].is_none() {
        pages[page as usize] = Some(first_page(layout, code, junk, page));
    }
}

// Puts a byte at a place of a page that is made.
fn put(pages: &mut Vec<Page>, place: u32, b: u8)
    requires inside { place / page_size < length pages.old.items }
    requires made { slice_index_or (map is_some pages.old.items) (place / page_size) false ≡ true }
    ensures there { (first : ℕ) →
        in_page (slice_index_or pages.new.items (place / page_size) None) (place % page_size) first
        ≡ b }
    ensures others { (page i first : ℕ) → page_size * page + i ≢ place → i < page_size →
        in_page (slice_index_or pages.new.items page None) i first
        ≡ in_page (slice_index_or pages.old.items page None) i first }
    ensures made { map is_some pages.new.items ≡ map is_some pages.old.items }
{
    if let Some(page) = &mut pages[(place / PAGE_SIZE) as usize] {
        page[(place % PAGE_SIZE) as usize] = b;
    }
}

/// Puts a byte at a place, whose page is made for it.
pub(crate) fn store(
    layout: Layout,
    code: &[u32],
    junk: u32,
    pages: &mut Vec<Page>,
    place: u32,
    b: u8,
)
    requires inside { place < ram_size layout }
    requires pages { length pages.old.items ≡ page_count layout }
    ensures bytes { bytes_in layout code.now junk pages.new.items
        ≡ slice_set (bytes_in layout code.now junk pages.old.items) place b }
    ensures made { map is_some pages.new.items
        ≡ slice_set (map is_some pages.old.items) (place / page_size) true }
{
    make(layout, code, junk, pages, place / PAGE_SIZE);
    put(pages, place, b);
}
