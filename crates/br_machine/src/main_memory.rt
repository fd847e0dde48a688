// RAM: the code's words, and its bytes in pages. A place is counted from RAM's low end.

ghost use Rattle.std.specs.Prelude.{◌≡◌, ℕ, ◌+◌, ◌*◌, ◌/◌, ◌%◌, ◌<◌, ◌≤◌, true, false, min, max};
ghost use Rattle.std.specs.Prelude.{length, map, is_some, slice_index, slice_index_or, slice_set};
ghost use Rattle.br_words.specs.Layout.{most_words};
ghost use Rattle.br_bytes.specs.Number.{number_of};
ghost use Rattle.br_machine.specs.State.{bytes_from, code_place, ram_size};
ghost use Rattle.br_machine.specs.Pages.{page_count, page_size};
ghost use Rattle.br_machine.specs.Kept.{IsKept, bytes_in};

use crate::pages::{Page, byte_at, store, word_of};
use br_words::Layout;
use std::marker::Model;

/// The bytes of RAM, which begins with the code, zeros after it, and the bytes of one word
/// elsewhere. A page of it is made when a byte of it is stored. Contracts see it as where it
/// stands, the words of the code, its bytes, and which pages are made.
#[derive(Drop)]
pub(crate) struct Ram {
    layout: Layout,
    code: Vec<u32>,
    junk: u32,
    pages: Vec<Page>,
}

impl Model for Ram {
    ghost use Rattle.std.specs.Prelude.{map, is_some};
    ghost use Rattle.br_machine.specs.Kept.{Kept, IsKept, bytes_in};

    ghost Value = { Kept };

    ghost view = { λ r. record {
      layout = r.layout;
      code = r.code.items;
      bytes = bytes_in r.layout r.code.items r.junk r.pages.items;
      made = map is_some r.pages.items;
    } };

    ghost invariant = { λ r. IsKept (record {
      layout = r.layout;
      code = r.code.items;
      bytes = bytes_in r.layout r.code.items r.junk r.pages.items;
      made = map is_some r.pages.items;
    }) };
}

impl Ram {
    /// RAM of these words of code, with these pages made.
    pub(crate) fn of(layout: Layout, code: Vec<u32>, junk: u32, pages: Vec<Page>) -> Ram
        requires { IsKept (record {
          layout = layout;
          code = code.items;
          bytes = bytes_in layout code.items junk pages.items;
          made = map is_some pages.items;
        }) }
        ensures { result ≡ record {
          layout = layout;
          code = code.items;
          bytes = bytes_in layout code.items junk pages.items;
          made = map is_some pages.items;
        } }
    {
        Ram {
            layout,
            code,
            junk,
            pages,
        }
    }

    /// The code's bytes are those of its words. This does nothing: what it ensures is the law.
    pub(crate) fn well_formed(&self)
        ensures { IsKept self.now }
    {
        let _ = &self.junk;
    }

    /// Where it stands.
    pub(crate) fn layout(&self) -> Layout
        ensures { result ≡ self.now.layout }
    {
        self.layout
    }

    /// How many words of code stand at the low end of the code region.
    pub(crate) fn code_words(&self) -> u32
        ensures value { result ≡ length self.now.code }
        ensures few { result ≤ most_words self.now.layout }
    {
        self.code.len() as u32
    }

    /// A word of the code, counted from 0: the number of its four bytes.
    pub(crate) fn code_word(&self, index: u32) -> u32
        requires { index < length self.now.code }
        ensures { result
            ≡ number_of (bytes_from self.now.bytes (code_place self.now.layout + 4 * index) 4) }
    {
        word_of(self.code.as_slice(), index)
    }

    /// Whether a page is made, `page` below the number of the layout's pages.
    pub(crate) fn is_made(&self, page: u32) -> bool
        requires { page < page_count self.now.layout }
        ensures { result ≡ slice_index_or self.now.made page false }
    {
        self.pages[page as usize].is_some()
    }

    /// The byte at a place.
    pub(crate) fn byte(&self, place: u32) -> u8
        requires { place < ram_size self.now.layout }
        ensures { result ≡ slice_index self.now.bytes place }
    {
        let pages = self.pages.as_slice();
        byte_at(self.layout, self.code.as_slice(), self.junk, pages, place)
    }

    /// The low byte of a number is put at a place that is none of the code's, and its page is made.
    pub(crate) fn set_byte(&mut self, place: u32, v: u32)
        requires inside { place < ram_size self.old.layout }
        requires apart { min (place + 1) (code_place self.old.layout + 4 * length self.old.code)
            ≤ max place (code_place self.old.layout) }
        ensures { self.new ≡ record self.old {
          bytes = slice_set self.old.bytes place (v % 256);
          made = slice_set self.old.made (place / page_size) true;
        } }
    {
        let code = self.code.as_slice();
        store(
            self.layout,
            code,
            self.junk,
            &mut self.pages,
            place,
            (v % 256) as u8,
        );
    }
}
