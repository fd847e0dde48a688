// Laws of the machine's step. Each function does nothing: what it ensures is the law.

ghost use Rattle.std.specs.Prelude.{◌≡◌, ℕ, ◌+◌, ◌-◌, ◌*◌, ◌%◌, ◌<◌, ◌≤◌, List};
ghost use Rattle.std.specs.Prelude.{length, Option, IfSome, slice_index, take, drop};
ghost use Rattle.std.specs.List.{AllByRecursion};
ghost use Rattle.std.specs.FinMap as map;
ghost use Rattle.br_bytes.specs.Number.{low_bytes};
ghost use Rattle.br_bytes.specs.Memory.{Memory, with_bytes};
ghost use Rattle.br_words.specs.Words.{IsWord};
ghost use Rattle.br_machine.specs.State.{MachineState, IsMachine, code_place, register};
ghost use Rattle.br_words.specs.Layout.{data_base, stack_base, stack_end};
ghost use Rattle.br_machine.specs.Step.{step};
ghost use Rattle.br_machine.specs.Steps.{Moment, after_steps};
ghost use Rattle.br_machine.specs.Start.{IsInData, IsLeftover};
ghost use Rattle.br_machine.specs.Junk.{junk_of};

use crate::stepped::{Stepped, Trap};
use br_rv32im::instructions_and_words_match;

/// A step that waits for an answer, ends the call or breaks a rule leaves the machine as it is.
pub fn steps_that_end_change_nothing()
    ensures waiting { (s : MachineState) (next : Option ℕ) (a : ℕ) →
        (step s next).1 ≡ Stepped.Waiting a → (step s next).0 ≡ s }
    ensures halted { (s : MachineState) (next : Option ℕ) →
        (step s next).1 ≡ Stepped.Halted → (step s next).0 ≡ s }
    ensures trapped { (s : MachineState) (next : Option ℕ) (trap : Trap) (pc : ℕ) →
        (step s next).1 ≡ Stepped.Trapped trap pc → (step s next).0 ≡ s }
{}

/// No step changes a byte of the code, nor how many words it has, nor where it stands.
pub fn steps_keep_the_code()
    ensures bytes { (s : MachineState) (next : Option ℕ) →
        let n = 4 * s.code_words
        in let place = code_place s.layout
        in take n (drop place (step s next).0.ram) ≡ take n (drop place s.ram) }
    ensures words { (s : MachineState) (next : Option ℕ) →
        (step s next).0.code_words ≡ s.code_words }
    ensures layout { (s : MachineState) (next : Option ℕ) → (step s next).0.layout ≡ s.layout }
{}

/// Register 0 reads 0 after any step (RISC-V unprivileged manual, chapter 2.1).
pub fn register_0_reads_0()
    ensures { (s : MachineState) (next : Option ℕ) → register (step s next).0 0 ≡ 0 }
{}

/// What a step makes of a machine is a machine, where the answer that it may take is a word: its
/// registers and its pc are words, pc is a multiple of 4, and its RAM is of bytes.
pub fn steps_make_machines()
    ensures { (s : MachineState) (next : Option ℕ) →
        IsMachine s → IfSome next IsWord → IsMachine (step s next).0 }
{
    instructions_and_words_match();
}

/// Steps add up: the steps of a second stretch go on from the moment at which the first ended.
pub fn steps_add_up()
    ensures { (first second : ℕ) (m : Moment) →
        after_steps (second + first) m ≡ after_steps second (after_steps first m) }
{}

/// The contents that one word tells are contents that a machine may hold, and the byte at an
/// address is the word's byte there, modulo 4, the lowest first.
pub fn junk_repeats_a_word()
    ensures leftover { (word : ℕ) → IsWord word → IsLeftover (junk_of word) }
    ensures bytes { (word a : ℕ) → data_base ≤ a → a < stack_end →
        slice_index (junk_of word).bytes (a - data_base) ≡ slice_index (low_bytes 4 word) (a % 4) }
{}

/// A memory to start with may be the empty one, or one that has its bytes in the data region, to
/// which bytes of the data region are added.
pub fn memories_of_the_data_region()
    ensures empty { IsInData map.empty }
    ensures more { (m : Memory) (a : ℕ) (bytes : List ℕ) →
        IsInData m → AllByRecursion (λ b. b < 256) bytes →
        data_base ≤ a → a + length bytes ≤ stack_base → IsInData (with_bytes m a bytes) }
{}
