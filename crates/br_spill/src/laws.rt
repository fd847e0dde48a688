// What holds of flat programs in register form. These functions do nothing: each
// contract is a law of the definitions.

ghost use Rattle.std.specs.Prelude.{◌≡◌, ℕ, List, ◌+◌, ◌*◌, ◌≤◌, IsTrue, map, sum};
ghost use Rattle.std.specs.List.{list_all};
ghost use Rattle.br_flatimp.specs.Refines.{Refines, meaning};
ghost use Rattle.br_flatimp.specs.Parts.{callees};
ghost use Rattle.br_flatimp.specs.Sizes.{flat_bulk, function_bulk, nest, units};
ghost use Rattle.br_flatimp.specs.WellFormed.{IsRegisterForm, IsWellFormed};
ghost use Rattle.br_flatimp.specs.declared.program.FlatFunc.{FlatFunc};
ghost use Rattle.br_spill.specs.Spill.{AreAsLean, Fits, HasWords, Layout, SpilledFunctions};
ghost use Rattle.br_spill.specs.Spill.{StayLean, buffers, is_narrow, layout_of, spilled_function};
ghost use Rattle.br_spill.specs.Spill.{spilled_program, wide_layout, wide_program};

use br_words::operations_answer_words;

/// Functions whose names have registers and words of a buffer, each name one of its
/// own, refine those that they come from.
pub fn spilled_programs_refine()
    ensures { (qs ps : List FlatFunc) → IsWellFormed ps → HasWords ps → SpilledFunctions qs ps →
        Refines (meaning qs) (meaning ps) }
{
    operations_answer_words();
}

/// They are well formed.
pub fn spilled_programs_are_well_formed()
    ensures { (qs ps : List FlatFunc) → IsWellFormed ps → SpilledFunctions qs ps → IsWellFormed qs }
{}

/// Where none of them has more than 32 names, they are in register form.
pub fn spilled_programs_are_in_register_form()
    ensures { (qs ps : List FlatFunc) → IsWellFormed ps → SpilledFunctions qs ps →
        IsTrue (list_all is_narrow qs) → IsRegisterForm qs }
{}

/// Sizes of such a function: its flat bulk is at most 24 times the units of the one that it
/// comes from, its buffers nested in one another have at most 4 bytes more for each name, it calls
/// the same functions, and it has the same buffers where no name has a place in memory.
pub fn spilled_functions_keep_sizes()
    ensures flat_bulk { (qs ps : List FlatFunc) → SpilledFunctions qs ps →
        flat_bulk qs ≤ 24 * sum (map units ps) }
    ensures bulk { (l : Layout) (f : FlatFunc) →
        function_bulk (spilled_function l f) ≤ 24 * units f }
    ensures nest { (l : Layout) (f : FlatFunc) → Fits f.names l →
        nest (spilled_function l f) ≤ nest f + 4 * f.names }
    ensures callees { (l : Layout) (f : FlatFunc) → callees (spilled_function l f) ≡ callees f }
    ensures buffers { (l : Layout) (f : FlatFunc) → l.slots ≡ 0 →
        buffers (spilled_function l f) ≡ buffers f }
{}

/// The layout of a count of names gives each its own place, and up to 21 names a register. By it no
/// function has more than 32 names.
pub fn layouts_fit()
    ensures fits { (names : ℕ) → names ≤ 1048576 → Fits names (layout_of names) }
    ensures few { (names : ℕ) → names ≤ 21 → (layout_of names).slots ≡ 0 }
    ensures program { (fs : List FlatFunc) → IsWellFormed fs →
        SpilledFunctions (spilled_program fs) fs }
    ensures narrow { (fs : List FlatFunc) → IsTrue (list_all is_narrow (spilled_program fs)) }
{}

/// The wide layout of a count of names gives each its own place, and up to 1,048,544 names a
/// register each, past the first 32.
pub fn wide_layouts_fit()
    ensures fits { (names : ℕ) → names ≤ 1048576 → Fits names (wide_layout names) }
    ensures registers { (names : ℕ) → names ≤ 1048544 → (wide_layout names).registers ≡ 32 + names }
    ensures slots { (names : ℕ) → names ≤ 1048544 → (wide_layout names).slots ≡ 0 }
    ensures program { (fs : List FlatFunc) → IsWellFormed fs →
        SpilledFunctions (wide_program fs) fs }
{}

/// A function with no more buffers than the one that it comes from misses no operand where that one
/// misses none, and has no dead statement but copies where that one has no dead one.
pub fn spilled_programs_are_as_lean()
    ensures { (qs ps : List FlatFunc) → IsWellFormed ps → SpilledFunctions qs ps → AreAsLean qs ps }
{}

/// In a function without buffers no operand is missed and no statement but a copy is dead, where
/// the one that it comes from misses none and has no dead one; up to 21 names get no buffer.
pub fn spilled_programs_stay_lean()
    ensures { (fs : List FlatFunc) → IsWellFormed fs → StayLean (spilled_program fs) fs }
{}
