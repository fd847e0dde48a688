// Numbers in RAM, the lowest byte first. A place is counted from RAM's low end.

ghost use Rattle.std.specs.Prelude.{◌≡◌, ◌+◌, ◌*◌, ◌^◌, ◌<◌, ◌≤◌, min, max, length};
ghost use Rattle.br_bytes.specs.Number.{number_of, low_bytes};
ghost use Rattle.br_machine.specs.State.{bytes_from, code_place, ram_size, with_bytes_from};
ghost use Rattle.br_machine.specs.Traps.{IsMoved};
ghost use Rattle.br_machine.specs.Kept.{with_made};

use crate::main_memory::Ram;

impl Ram {
    fn byte_at(&self, place: u32) -> u32
        requires { place < ram_size self.now.layout }
        ensures value { result ≡ number_of (bytes_from self.now.bytes place 1) }
        ensures small { result < 256 }
    {
        u32::from(self.byte(place))
    }

    fn half_at(&self, place: u32) -> u32
        requires { place + 2 ≤ ram_size self.now.layout }
        ensures value { result ≡ number_of (bytes_from self.now.bytes place 2) }
        ensures small { result < 2 ^ 16 }
    {
        self.byte_at(place) + 256 * self.byte_at(place + 1)
    }

    fn word_at(&self, place: u32) -> u32
        requires { place + 4 ≤ ram_size self.now.layout }
        ensures { result ≡ number_of (bytes_from self.now.bytes place 4) }
    {
        self.half_at(place) + 65536 * self.half_at(place + 2)
    }

    /// The number of the `n` bytes from a place on, `n` 1, 2 or 4.
    pub(crate) fn number_at(&self, place: u32, n: u32) -> u32
        requires size { IsMoved n }
        requires inside { place + n ≤ ram_size self.now.layout }
        ensures value { result ≡ number_of (bytes_from self.now.bytes place n) }
        ensures small { result < 2 ^ (8 * n) }
    {
        match n {
            1 => self.byte_at(place),
            2 => self.half_at(place),
            _ => self.word_at(place),
        }
    }

    fn set_half(&mut self, place: u32, v: u32)
        requires inside { place + 2 ≤ ram_size self.old.layout }
        requires apart { min (place + 2) (code_place self.old.layout + 4 * length self.old.code)
            ≤ max place (code_place self.old.layout) }
        ensures { self.new ≡ record self.old {
          bytes = with_bytes_from self.old.bytes place (low_bytes 2 v);
          made = with_made self.old.made place 2;
        } }
    {
        self.set_byte(place, v);
        self.set_byte(place + 1, v / 256);
    }

    fn set_word(&mut self, place: u32, v: u32)
        requires inside { place + 4 ≤ ram_size self.old.layout }
        requires apart { min (place + 4) (code_place self.old.layout + 4 * length self.old.code)
            ≤ max place (code_place self.old.layout) }
        ensures { self.new ≡ record self.old {
          bytes = with_bytes_from self.old.bytes place (low_bytes 4 v);
          made = with_made self.old.made place 4;
        } }
    {
        self.set_half(place, v);
        self.set_half(place + 2, v / 65536);
    }

    /// The `n` low bytes of a number are put from a place on, `n` 1, 2 or 4, where none is the
    /// code's, and the pages that they are in are made.
    pub(crate) fn set_number(&mut self, place: u32, n: u32, v: u32)
        requires size { IsMoved n }
        requires inside { place + n ≤ ram_size self.old.layout }
        requires apart { min (place + n) (code_place self.old.layout + 4 * length self.old.code)
            ≤ max place (code_place self.old.layout) }
        ensures { self.new ≡ record self.old {
          bytes = with_bytes_from self.old.bytes place (low_bytes n v);
          made = with_made self.old.made place n;
        } }
    {
        match n {
            1 => self.set_byte(place, v),
            2 => self.set_half(place, v),
            _ => self.set_word(place, v),
        }
    }
}
