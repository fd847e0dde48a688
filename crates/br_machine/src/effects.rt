// What the kinds of instructions do, unless they break a rule.

ghost use Rattle.std.specs.Prelude.{◌≡◌, ℕ, ◌%◌, ◌^◌, ◌<◌, ◌≤◌, ◌+◌, ◌-◌, ◌||◌, ◌&&◌};
ghost use Rattle.std.specs.Prelude.{IfSome, None, false, is_none, is_some, if◌then◌else◌};
ghost use Rattle.br_bytes.specs.Number.{low_bytes};
ghost use Rattle.br_words.specs.Layout.{ram_base};
ghost use Rattle.br_machine.specs.State.{ram_size, with_bytes_from};
ghost use Rattle.br_machine.specs.Arithmetic.{plus};
ghost use Rattle.br_machine.specs.Pages.{is_made, page_base, page_count, page_size};
ghost use Rattle.br_machine.specs.Traps.{IsMoved, address, device_trap, in_ram};
ghost use Rattle.br_machine.specs.Traps.{jalr_target, jump_trap, meet, store_trap};
ghost use Rattle.br_machine.specs.Effects.{at_pc, next_pc, computes, jumps, device_read, moved_on};
ghost use Rattle.br_machine.specs.Step.{unless};

use crate::machine::Machine;
use crate::stepped::{Stepped, Trap};
use crate::traps::{device_trap, in_ram, jump_trap, touches_code};

impl Machine {
    /// A rule is broken, which changes nothing.
    pub(crate) fn trapped(&self, trap: Trap) -> Stepped
        ensures { result ≡ Stepped.Trapped trap self.now.state.pc }
    {
        Stepped::Trapped(trap, self.pc())
    }

    // The address after this instruction.
    fn next_pc(&self) -> u32
        ensures value { result ≡ next_pc self.now.state }
        ensures aligned { result % 4 ≡ 0 }
    {
        self.pc().wrapping_add(4)
    }

    /// A register takes a value, and the machine goes on after this instruction.
    pub(crate) fn compute(&mut self, rd: u32, v: u32) -> Stepped
        requires { rd < 32 }
        ensures machine { self.new ≡ record self.old { state = computes rd v self.old.state } }
        ensures end { result ≡ Stepped.Ran }
    {
        self.set_pc(self.next_pc());
        self.set_register(rd, v);
        Stepped::Ran
    }

    /// The address in a register and an immediate.
    pub(crate) fn address(&self, base: u32, imm: i32) -> u32
        requires { base < 32 }
        ensures { result ≡ address self.now.state base imm }
    {
        self.register(base).wrapping_add_signed(imm)
    }

    /// Where a JALR leads: the lowest bit is cleared.
    pub(crate) fn jalr_target(&self, base: u32, imm: i32) -> u32
        requires { base < 32 }
        ensures { result ≡ jalr_target self.now.state base imm }
    {
        self.address(base, imm) / 2 * 2
    }

    /// A register takes the address after this instruction, and the machine goes on at another.
    pub(crate) fn jump(&mut self, rd: u32, target: u32) -> Stepped
        requires { rd < 32 }
        ensures machine { self.new.state
            ≡ (unless (jump_trap target) (jumps rd target self.old.state, Stepped.Ran)
            self.old.state).0 }
        ensures made { self.new.made ≡ self.old.made }
        ensures end { result
            ≡ (unless (jump_trap target) (jumps rd target self.old.state, Stepped.Ran)
            self.old.state).1 }
    {
        if let Some(trap) = jump_trap(target) {
            return self.trapped(trap);
        }
        let after = self.next_pc();
        self.set_pc(target);
        self.set_register(rd, after);
        Stepped::Ran
    }

    /// The machine goes on at a distance where a test holds, and else after this instruction.
    pub(crate) fn branch(&mut self, taken: bool, imm: i32) -> Stepped
        ensures machine { self.new.state
            ≡ (unless (if taken then jump_trap (plus self.old.state.pc imm) else None) (
              at_pc (if taken then plus self.old.state.pc imm
                  else next_pc self.old.state) self.old.state,
              Stepped.Ran,
            )
            self.old.state).0 }
        ensures made { self.new.made ≡ self.old.made }
        ensures end { result
            ≡ (unless (if taken then jump_trap (plus self.old.state.pc imm) else None) (
              at_pc (if taken then plus self.old.state.pc imm
                  else next_pc self.old.state) self.old.state,
              Stepped.Ran,
            )
            self.old.state).1 }
    {
        if !taken {
            self.set_pc(self.next_pc());
            return Stepped::Ran;
        }
        let target = self.pc().wrapping_add_signed(imm);
        if let Some(trap) = jump_trap(target) {
            return self.trapped(trap);
        }
        self.set_pc(target);
        Stepped::Ran
    }

    /// The place in RAM of the first of `n` bytes from `a` on, counted from RAM's
    /// low end, where all of them are in RAM.
    pub(crate) fn place_in_ram(&self, a: u32, n: u32) -> Option<u32>
        requires { n ≤ 4 }
        ensures ram { is_some result ≡ in_ram self.now.state.layout a n }
        ensures place { IfSome result (λ p. p ≡ a - ram_base self.now.state.layout) }
        ensures inside { IfSome result (λ p. p + n ≤ ram_size self.now.state.layout) }
    {
        if in_ram(self.layout(), a, n) {
            Some(a - self.layout().ram_base())
        } else {
            None
        }
    }

    /// A register takes what a device answers for `n` bytes from `a` on, which are
    /// outside RAM, where an answer is there.
    pub(crate) fn read_device(
        &mut self,
        rd: u32,
        a: u32,
        n: u32,
        next_answer: Option<u32>,
    ) -> Stepped
        requires { rd < 32 }
        ensures machine { self.new.state
            ≡ (unless (device_trap a n) (device_read rd a self.old.state next_answer)
            self.old.state).0 }
        ensures made { self.new.made ≡ self.old.made }
        ensures end { result
            ≡ (unless (device_trap a n) (device_read rd a self.old.state next_answer)
            self.old.state).1 }
    {
        if let Some(trap) = device_trap(a, n) {
            return self.trapped(trap);
        }
        match next_answer {
            None => Stepped::Waiting(a),
            Some(v) => {
                let _ = self.compute(rd, v);
                Stepped::Read(a, v)
            }
        }
    }

    /// The `n` low bytes of a number are stored from `a` on, or written to a device, `n` 1, 2 or 4.
    pub(crate) fn store(&mut self, a: u32, n: u32, v: u32) -> Stepped
        requires { IsMoved n }
        ensures machine { self.new.state
            ≡ (unless (store_trap self.old.state.layout self.old.state.code_words a n)
            (if in_ram self.old.state.layout a n
            then (
              record (moved_on self.old.state) {
                ram = with_bytes_from self.old.state.ram (a - ram_base self.old.state.layout)
                    (low_bytes n v);
              },
              Stepped.Ran,
            )
            else (moved_on self.old.state, Stepped.Wrote a v))
            self.old.state).0 }
        ensures made { (page : ℕ) → page < page_count self.old.state.layout → is_made self.new page
            ≡ ((meet a n (page_base self.old.state.layout page) page_size
            && is_none (store_trap self.old.state.layout self.old.state.code_words a n))
            || is_made self.old page) }
        ensures end { result
            ≡ (unless (store_trap self.old.state.layout self.old.state.code_words a n)
            (if in_ram self.old.state.layout a n
            then (
              record (moved_on self.old.state) {
                ram = with_bytes_from self.old.state.ram (a - ram_base self.old.state.layout)
                    (low_bytes n v);
              },
              Stepped.Ran,
            )
            else (moved_on self.old.state, Stepped.Wrote a v))
            self.old.state).1 }
    {
        self.well_formed();
        let Some(place) = self.place_in_ram(a, n) else {
            if let Some(trap) = device_trap(a, n) {
                return self.trapped(trap);
            }
            self.set_pc(self.next_pc());
            return Stepped::Wrote(a, v);
        };
        if touches_code(self.layout(), self.code_words(), a, n) {
            return self.trapped(Trap::CodeWrite);
        }
        self.set_pc(self.next_pc());
        self.set_number(place, n, v);
        Stepped::Ran
    }
}
