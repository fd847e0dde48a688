// The machine, and what is read and set of it.

ghost use Rattle.std.specs.Prelude.{◌≡◌, ℕ, ◌+◌, ◌-◌, ◌*◌, ◌%◌, ◌^◌, ◌<◌, ◌≤◌};
ghost use Rattle.std.specs.Prelude.{min, max, length, IfSome, IsNone, ◌↔◌, ◌⊎◌};
ghost use Rattle.br_words.specs.Layout.{ram_base, ram_end, most_words};
ghost use Rattle.br_bytes.specs.Number.{number_of, low_bytes};
ghost use Rattle.br_machine.specs.State.{MachineState, IsMachine, code_place, ram_size, register};
ghost use Rattle.br_machine.specs.State.{with_register, byte_of, bytes_from, with_bytes_from};
ghost use Rattle.br_machine.specs.Traps.{IsMoved};
ghost use Rattle.br_machine.specs.Effects.{at_pc};
ghost use Rattle.br_machine.specs.Pages.{IsPaged, is_made, page_count};
ghost use Rattle.br_machine.specs.Kept.{with_made};

use crate::main_memory::Ram;
use br_words::Layout;
use std::marker::Model;

/// A machine of RV32IM, whose layout says where its RAM and its code stand. Contracts see it as the
/// machine's state, which is its layout, its registers, its pc, the bytes of its RAM and the number
/// of its words of code, and as which pages of its RAM are made.
#[derive(Drop)]
pub struct Machine {
    registers: [u32; 32],
    pc: u32,
    ram: Ram,
}

impl Model for Machine {
    ghost use Rattle.std.specs.Prelude.{length};
    ghost use Rattle.br_machine.specs.Pages.{Paged, IsPaged};

    ghost Value = { Paged };

    ghost view = { λ m. record {
      state = record {
        layout = m.ram.layout;
        registers = m.registers;
        pc = m.pc;
        ram = m.ram.bytes;
        code_words = length m.ram.code;
      };
      made = m.ram.made;
    } };

    ghost invariant = { λ m. IsPaged (record {
      state = record {
        layout = m.ram.layout;
        registers = m.registers;
        pc = m.pc;
        ram = m.ram.bytes;
        code_words = length m.ram.code;
      };
      made = m.ram.made;
    }) };
}

impl Machine {
    /// The machine of these parts.
    pub(crate) fn of(registers: [u32; 32], pc: u32, ram: Ram) -> Machine
        requires { IsPaged (record {
          state = record {
            layout = ram.layout;
            registers = registers;
            pc = pc;
            ram = ram.bytes;
            code_words = length ram.code;
          };
          made = ram.made;
        }) }
        ensures { result ≡ record {
          state = record {
            layout = ram.layout;
            registers = registers;
            pc = pc;
            ram = ram.bytes;
            code_words = length ram.code;
          };
          made = ram.made;
        } }
    {
        Machine { registers, pc, ram }
    }

    /// Each machine has 32 registers that are words, a pc that is one and a multiple of 4, RAM of
    /// as many bytes as its layout has, no more words of code than the code region holds, and is
    /// told of each page whether it is made. This does nothing: what it ensures is the law.
    pub fn well_formed(&self)
        ensures { IsPaged self.now }
    {
        let _ = &self.pc;
    }

    /// What register `r` reads as, `r` below 32; register 0 reads 0 (RISC-V unprivileged manual,
    /// chapter 2.1).
    pub fn register(&self, r: u32) -> u32
        requires { r < 32 }
        ensures { result ≡ register self.now.state r }
    {
        if r == 0 {
            0
        } else {
            self.registers[r as usize]
        }
    }

    /// Where its RAM and its code stand.
    pub(crate) fn layout(&self) -> Layout
        ensures { result ≡ self.now.state.layout }
    {
        self.ram.layout()
    }

    /// The address of the next instruction, a multiple of 4.
    pub fn pc(&self) -> u32
        ensures value { result ≡ self.now.state.pc }
        ensures aligned { result % 4 ≡ 0 }
    {
        self.pc
    }

    /// The byte at an address, or nothing where the address is outside RAM.
    pub fn byte(&self, a: u32) -> Option<u8>
        ensures outside { IsNone result
            ↔ ((a < ram_base self.now.state.layout) ⊎ (ram_end self.now.state.layout ≤ a)) }
        ensures inside { IfSome result (λ b. b ≡ byte_of self.now.state a) }
    {
        let layout = self.ram.layout();
        let base = layout.ram_base();
        if a < base || layout.ram_end() <= a {
            None
        } else {
            Some(self.ram.byte(a - base))
        }
    }

    /// Whether a page of RAM is made, `page` below the number of the layout's pages: 768 or 1,536
    /// of 4,096 bytes each, of which page 0 begins at RAM's low end.
    pub fn made(&self, page: u32) -> bool
        requires { page < page_count self.now.state.layout }
        ensures { result ≡ is_made self.now page }
    {
        self.ram.is_made(page)
    }

    /// How many words of code stand at the low end of the code region.
    pub(crate) fn code_words(&self) -> u32
        ensures value { result ≡ self.now.state.code_words }
        ensures few { result ≤ most_words self.now.state.layout }
    {
        self.ram.code_words()
    }

    /// A word of the code, counted from 0: the number of its four bytes.
    pub(crate) fn code_word(&self, index: u32) -> u32
        requires { index < self.now.state.code_words }
        ensures { result ≡ number_of
            (bytes_from self.now.state.ram (code_place self.now.state.layout + 4 * index) 4) }
    {
        self.ram.code_word(index)
    }

    /// x0 keeps no write.
    pub(crate) fn set_register(&mut self, r: u32, v: u32)
        requires { r < 32 }
        ensures { self.new ≡ record self.old { state = with_register r v self.old.state } }
    {
        if r != 0 {
            self.registers[r as usize] = v;
        }
    }

    pub(crate) fn set_pc(&mut self, a: u32)
        requires { a % 4 ≡ 0 }
        ensures { self.new ≡ record self.old { state = at_pc a self.old.state } }
    {
        self.pc = a;
    }

    /// The number of the `n` bytes from a place of RAM on, counted from its low end, `n` 1, 2 or 4.
    pub(crate) fn number_at(&self, place: u32, n: u32) -> u32
        requires size { IsMoved n }
        requires inside { place + n ≤ ram_size self.now.state.layout }
        ensures value { result ≡ number_of (bytes_from self.now.state.ram place n) }
        ensures small { result < 2 ^ (8 * n) }
    {
        self.ram.number_at(place, n)
    }

    /// The `n` low bytes of a number are put from a place on, `n` 1, 2 or 4, where none is the
    /// code's, and the pages that they are in are made.
    pub(crate) fn set_number(&mut self, place: u32, n: u32, v: u32)
        requires size { IsMoved n }
        requires inside { place + n ≤ ram_size self.old.state.layout }
        requires apart { min (place + n)
            (code_place self.old.state.layout + 4 * self.old.state.code_words)
            ≤ max place (code_place self.old.state.layout) }
        ensures { self.new ≡ record {
          state = record self.old.state {
            ram = with_bytes_from self.old.state.ram place (low_bytes n v);
          };
          made = with_made self.old.made place n;
        } }
    {
        self.ram.set_number(place, n, v);
        self.ram.well_formed();
    }
}
