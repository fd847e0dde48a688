// One step of the machine.

ghost use Rattle.std.specs.Prelude.{◌≡◌, ℕ, ◌*◌, ◌^◌, ◌<◌, ◌||◌, true};
ghost use Rattle.br_rv32im.specs.Encoding.{Fits};
ghost use Rattle.br_machine.specs.Traps.{IsMoved, load_size, load_trap, store_size, trap_of};
ghost use Rattle.br_machine.specs.Effects.{load_effect, loaded};
ghost use Rattle.br_machine.specs.Pages.{is_made, obeyed_in, page_count, step_stores_in};
ghost use Rattle.br_machine.specs.Step.{is_in_code, fetched, unless, obey, step};

use crate::arithmetic::{imm_value, is_taken, reg_value, shift_value};
use crate::laws::{steps_keep_the_code, steps_that_end_change_nothing};
use crate::machine::Machine;
use crate::stepped::{Stepped, Trap};
use br_rv32im::{Ins, LoadOp, StoreOp, UpperOp, decode};
use br_words::sext;

// How many bytes a load moves.
fn load_size(op: LoadOp) -> u32
    ensures value { result ≡ load_size op }
    ensures moved { IsMoved result }
{
    match op {
        LoadOp::Lb | LoadOp::Lbu => 1,
        LoadOp::Lh | LoadOp::Lhu => 2,
        LoadOp::Lw => 4,
    }
}

// What a load makes of the number of the bytes that it reads.
fn loaded(op: LoadOp, v: u32) -> u32
    requires { v < 2 ^ (8 * load_size op) }
    ensures { result ≡ loaded op v }
{
    match op {
        LoadOp::Lb => sext::<8>(v),
        LoadOp::Lh => sext::<16>(v),
        LoadOp::Lw | LoadOp::Lbu | LoadOp::Lhu => v,
    }
}

// How many bytes a store moves.
fn store_size(op: StoreOp) -> u32
    ensures value { result ≡ store_size op }
    ensures moved { IsMoved result }
{
    match op {
        StoreOp::Sb => 1,
        StoreOp::Sh => 2,
        StoreOp::Sw => 4,
    }
}

impl Machine {
    // Whether pc is the address of a byte of the code.
    fn is_in_code(&self) -> bool
        ensures { result ≡ is_in_code self.now.state }
    {
        let pc = self.pc();
        let base = self.layout().code_base();
        base <= pc && pc < base + 4 * self.code_words()
    }

    // The word at pc, which is a whole word of the code.
    fn fetched(&self) -> u32
        requires { is_in_code self.now.state ≡ true }
        ensures { result ≡ fetched self.now.state }
    {
        self.code_word((self.pc() - self.layout().code_base()) / 4)
    }

    // A register takes what a load makes of bytes of RAM, or what a device answers.
    fn load(&mut self, op: LoadOp, rd: u32, a: u32, next_answer: Option<u32>) -> Stepped
        requires { rd < 32 }
        ensures machine { self.new.state
            ≡ (unless (load_trap self.old.state.layout a (load_size op))
            (load_effect op rd a self.old.state next_answer) self.old.state).0 }
        ensures made { self.new.made ≡ self.old.made }
        ensures end { result
            ≡ (unless (load_trap self.old.state.layout a (load_size op))
            (load_effect op rd a self.old.state next_answer) self.old.state).1 }
    {
        let size = load_size(op);
        match self.place_in_ram(a, size) {
            Some(place) => {
                let v = self.number_at(place, size);
                self.compute(rd, loaded(op, v))
            }
            None => self.read_device(rd, a, size, next_answer),
        }
    }

    // An instruction is carried out, unless it would break a rule.
    fn obey(&mut self, i: Ins, next_answer: Option<u32>) -> Stepped
        requires { Fits i }
        ensures machine { self.new.state
            ≡ (obey i (trap_of i self.old.state) self.old.state next_answer).0 }
        ensures made { (page : ℕ) → page < page_count self.old.state.layout → is_made self.new page
            ≡ (obeyed_in i (trap_of i self.old.state) self.old.state page
            || is_made self.old page) }
        ensures end { result ≡ (obey i (trap_of i self.old.state) self.old.state next_answer).1 }
    {
        match i {
            Ins::Upper(UpperOp::Lui, rd, field) => self.compute(rd, field * 4096),
            Ins::Upper(UpperOp::Auipc, rd, field) => {
                self.compute(rd, self.pc().wrapping_add(field * 4096))
            }
            Ins::Jal(rd, imm) => self.jump(rd, self.pc().wrapping_add_signed(imm)),
            Ins::Jalr(rd, rs1, imm) => self.jump(rd, self.jalr_target(rs1, imm)),
            Ins::Branch(op, rs1, rs2, imm) => {
                let taken = is_taken(op, self.register(rs1), self.register(rs2));
                self.branch(taken, imm)
            }
            Ins::Load(op, rd, rs1, imm) => {
                self.load(op, rd, self.address(rs1, imm), next_answer)
            }
            Ins::Store(op, rs1, rs2, imm) => {
                self.store(self.address(rs1, imm), store_size(op), self.register(rs2))
            }
            Ins::Imm(op, rd, rs1, imm) => {
                let v = imm_value(op, self.register(rs1), imm.cast_unsigned());
                self.compute(rd, v)
            }
            Ins::Shift(op, rd, rs1, amount) => {
                let v = shift_value(op, self.register(rs1), amount);
                self.compute(rd, v)
            }
            Ins::Reg(op, rd, rs1, rs2) => {
                let v = reg_value(op, self.register(rs1), self.register(rs2));
                self.compute(rd, v)
            }
            Ins::Ecall => Stepped::Halted,
        }
    }

    // One step, by what it makes of the machine and how it ends.
    fn take_step(&mut self, next_answer: Option<u32>) -> Stepped
        ensures machine { self.new.state ≡ (step self.old.state next_answer).0 }
        ensures end { result ≡ (step self.old.state next_answer).1 }
        ensures made { (page : ℕ) → page < page_count self.old.state.layout →
            is_made self.new page ≡ (step_stores_in self.old.state page || is_made self.old page) }
    {
        if !self.is_in_code() {
            return self.trapped(Trap::FetchOutside);
        }
        let Some(i) = decode(self.fetched()) else {
            return self.trapped(Trap::Illegal);
        };
        self.obey(i, next_answer)
    }

    /// One step: the instruction at pc is carried out, unless a rule would be broken, in the order
    /// that [`Trap`] gives (RISC-V unprivileged manual, RV32I and the M extension). `next_answer`
    /// is the answer that a device would give next. `Waiting`, `Halted` and `Trapped` change
    /// nothing, so that the same step answers alike again. A page is made when a byte of it is
    /// first stored, which takes no memory.
    pub fn step(&mut self, next_answer: Option<u32>) -> Stepped
        ensures machine { self.new.state ≡ (step self.old.state next_answer).0 }
        ensures end { result ≡ (step self.old.state next_answer).1 }
        ensures layout { self.new.state.layout ≡ self.old.state.layout }
        ensures made { (page : ℕ) → page < page_count self.old.state.layout →
            is_made self.new page ≡ (step_stores_in self.old.state page || is_made self.old page) }

        ensures waiting { (a : ℕ) → result ≡ Stepped.Waiting a → self.new.state ≡ self.old.state }
        ensures halted { result ≡ Stepped.Halted → self.new.state ≡ self.old.state }
        ensures trapped { (trap : Trap) (pc : ℕ) →
            result ≡ Stepped.Trapped trap pc → self.new.state ≡ self.old.state }
    {
        // The clause on the layout, and the last three, are these laws.
        steps_keep_the_code();
        steps_that_end_change_nothing();
        self.take_step(next_answer)
    }
}
