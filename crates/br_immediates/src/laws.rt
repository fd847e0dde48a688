// What holds of programs with constants in place of names. These functions do nothing: each
// contract is a law of the definitions.

ghost use Rattle.std.specs.Prelude.{◌≡◌, List, true};
ghost use Rattle.std.specs.List.{list_all};
ghost use Rattle.br_flatimp.specs.Missed.{has_no_missed};
ghost use Rattle.br_flatimp.specs.Refines.{Refines, meaning};
ghost use Rattle.br_flatimp.specs.Sizes.{Kept};
ghost use Rattle.br_flatimp.specs.WellFormed.{IsWellFormed};
ghost use Rattle.br_flatimp.specs.declared.program.FlatFunc.{FlatFunc};
ghost use Rattle.br_immediates.specs.Immediates.{function_literals_fit, program_with_constants};

/// Each function keeps its name, its counts, its sizes and its callees.
pub fn programs_with_constants_keep_sizes()
    ensures { (fs : List FlatFunc) → Kept (program_with_constants fs) fs }
{}

/// They refine the programs that they come from, where the literals are words.
pub fn programs_with_constants_refine()
    ensures { (fs : List FlatFunc) → list_all function_literals_fit fs ≡ true →
        Refines (meaning (program_with_constants fs)) (meaning fs) }
{}

/// They are well formed where those are.
pub fn programs_with_constants_are_well_formed()
    ensures { (fs : List FlatFunc) → IsWellFormed fs → IsWellFormed (program_with_constants fs) }
{}

/// No operand of theirs is missed.
pub fn programs_with_constants_miss_none()
    ensures { (fs : List FlatFunc) → list_all has_no_missed (program_with_constants fs) ≡ true }
{}
