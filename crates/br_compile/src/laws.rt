// What follows from the definitions. These functions do nothing: each contract is a law.

ghost use Rattle.std.specs.Prelude.{◌≡◌, ℕ, ◌⊎◌, List};
ghost use Rattle.br_compile.specs.declared.refusal.Refusal.{Refusal};
ghost use Rattle.br_compile.specs.Refusal.{Accepts, IsFaultOf};
ghost use Rattle.br_words.specs.declared.layout.Layout.{Layout};
ghost use Rattle.br_bytes.specs.Memory.{Memory};
ghost use Rattle.br_syntax.specs.declared.program.Func.{Func};
ghost use Rattle.br_image.specs.declared.images.Entry.{Entry};
ghost use Rattle.br_machine.specs.Start.{Leftover};
ghost use Rattle.br_compile.specs.Implements.{Follows};
ghost use Rattle.br_compile.specs.FirstSteps.{FollowsAtFirst};

use br_measure::{faults_are_unique, programs_are_decided, sound_programs_have_no_fault};
use br_sexpr::one_answer;
use br_syntax::one_meaning;

/// For every number n of steps, also where the program never ends: unless a run of the source with
/// n units of fuel is undefined, none of the first n steps of an image that follows it traps, and
/// the events of these steps are the first events of a source run.
pub fn first_steps_show_a_run()
    ensures { (layout : Layout) (code : List ℕ) (fs : List Func) (f : Func) (entry : Entry)
        (args : List ℕ) (m : Memory) (answers : List ℕ) (j : Leftover) (n : ℕ) →
        Follows layout code fs f entry args m answers j n →
        FollowsAtFirst layout code fs f entry args m answers j n }
{}

/// Each text is accepted as one program or has one fault, and never both.
pub fn texts_are_accepted_or_at_fault()
    ensures some { (text : List ℕ) →
        ((fs : List Func) × Accepts text fs) ⊎ ((r : Refusal) × IsFaultOf text r) }
    ensures one_program { (text : List ℕ) (fs gs : List Func) → Accepts text fs →
        Accepts text gs → fs ≡ gs }
    ensures one_fault { (text : List ℕ) (first second : Refusal) → IsFaultOf text first →
        IsFaultOf text second → first ≡ second }
    ensures never_both { (text : List ℕ) (fs : List Func) (r : Refusal) → Accepts text fs →
        IsFaultOf text r → ⊥ }
{
    one_answer();
    one_meaning();
    programs_are_decided();
    faults_are_unique();
    sound_programs_have_no_fault();
}
