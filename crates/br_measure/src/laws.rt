// Laws of the definitions. Each function does nothing: what it ensures is the law.

ghost use Rattle.std.specs.Prelude.{◌≡◌, ℕ, ◌+◌, ◌*◌, ◌⊎◌, List, Some, map, slice_get};
ghost use Rattle.std.specs.Option.{option_map, unwrap_or};
ghost use Rattle.br_syntax.specs.declared.program.Func.{Func};
ghost use Rattle.br_syntax.specs.Functions.{function_named};
ghost use Rattle.br_measure.specs.declared.faults.NameFault.{NameFault};
ghost use Rattle.br_measure.specs.Bulk.{function_bulk};
ghost use Rattle.br_measure.specs.Faults.{IsFault, IsSound};
ghost use Rattle.br_measure.specs.Measure.{measure, nested_buffers, largest};
ghost use Rattle.br_measure.specs.Paths.{callees, HasNoRecursion};

/// Where no function has a path of calls to itself, the measure of a function is what it needs for
/// itself and the largest measure of its callees.
pub fn measures_add_up()
    ensures { (fs : List Func) (f : ℕ) (caller : Func) → HasNoRecursion fs → slice_get fs f
        ≡ Some caller →
        measure fs caller ≡ 4 * function_bulk caller + 256 + nested_buffers caller
        + largest (map (λ x. unwrap_or (option_map (measure fs) (function_named fs x)) 0)
        (callees caller)) }
{}

/// A program has a fault or none: a sound program has no fault.
pub fn sound_programs_have_no_fault()
    ensures { (fs : List Func) (fault : NameFault) → IsSound fs → IsFault fs fault → ⊥ }
{}

/// A program has at most one fault.
pub fn faults_are_unique()
    ensures { (fs : List Func) (first second : NameFault) → IsFault fs first → IsFault fs second
        → first ≡ second }
{}

/// A program is sound or has a fault.
pub fn programs_are_decided()
    ensures { (fs : List Func) → IsSound fs ⊎ ((fault : NameFault) × IsFault fs fault) }
{}
