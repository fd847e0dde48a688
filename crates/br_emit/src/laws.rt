// What holds of flat programs in code. These functions do nothing: each contract is a law of the
// definitions.

ghost use Rattle.std.specs.Prelude.{◌≡◌, ℕ, List, ◌+◌, ◌-◌, ◌≤◌, true, length, Some, slice_get};
ghost use Rattle.br_words.specs.declared.layout.Layout.TheVariants.{Two};
ghost use Rattle.br_words.specs.Layout.{most_words, most_stack, stack_end};
ghost use Rattle.br_flatimp.specs.declared.program.FlatFunc.{FlatFunc};
ghost use Rattle.br_flatimp.specs.Runs.{Forgets};
ghost use Rattle.br_flatimp.specs.Sizes.{nest};
ghost use Rattle.br_emit.specs.Code.{Targets, direct_items, entry_items, places};
ghost use Rattle.br_emit.specs.Laid.{Laid, Placed, ShowsCalls, IsCodeOf, ShowsFunction};

use br_flatimp::forgetting_refines;
use br_machine::steps_make_machines;
use br_rv32im::instructions_and_words_match;

/// An entry that is its function alone shows each call of it: unless a run with these answers is
/// undefined, the machine makes the run's events, traps nowhere, keeps within the stated need, and
/// ends as the run does, with its words and its memory.
pub fn direct_entries_show_calls()
    ensures { (l : Laid) (n : ℕ) (f : FlatFunc) (place need all : ℕ) →
        slice_get l.fs n ≡ Some f → Placed l.code place (direct_items l.targets f) →
        length l.code ≤ most_words Two → l.low ≡ stack_end - need →
        l.low + nest f + l.limit n ≤ stack_end → 16 + l.total ≤ all →
        ShowsCalls l n f place need all }
{
    instructions_and_words_match();
    steps_make_machines();
}

/// The same of an entry that sets the stack pointer and calls its function.
pub fn called_entries_show_calls()
    ensures { (l : Laid) (n : ℕ) (f : FlatFunc) (place need all : ℕ) →
        slice_get l.fs n ≡ Some f → l.called n ≡ true →
        Placed l.code place (entry_items l.targets.near (l.targets.at n)) →
        length l.code ≤ most_words Two → l.low ≡ stack_end - need →
        l.low + l.need n ≤ stack_end → 16 + l.total ≤ all →
        ShowsCalls l n f place need all }
{
    instructions_and_words_match();
    steps_make_machines();
}

/// Where the code of a program is that of its functions one after another, and its words fit their
/// fields, the entry of each function that needs no more than the stack has shows each call of it,
/// within the program's flat bulk in steps for each unit of fuel and one more.
pub fn code_shows_its_program()
    ensures { (fs : List FlatFunc) (targets : Targets) (forgets : Forgets) (need : ℕ → ℕ)
        (code : List ℕ) →
        IsCodeOf fs targets forgets need code → (n : ℕ) (f : FlatFunc) (place : ℕ) →
        slice_get fs n ≡ Some f → slice_get (places targets forgets fs 0 0 fs) n ≡ Some place →
        need n ≤ most_stack → ShowsFunction fs targets forgets need code n f place }
{
    forgetting_refines();
    instructions_and_words_match();
    steps_make_machines();
}
