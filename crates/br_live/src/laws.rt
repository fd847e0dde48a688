// What holds of names in well formed programs. This function does nothing: its contract is a law of
// the definitions.

ghost use Rattle.std.specs.Prelude.{IsTrue, List};
ghost use Rattle.br_flatimp.specs.declared.program.FlatFunc.{FlatFunc};
ghost use Rattle.br_flatimp.specs.Parts.{function_names};
ghost use Rattle.br_flatimp.specs.WellFormed.{are_below, is_well_formed_function};

/// Each name in a well formed function is below its count of names.
pub fn names_are_below()
    ensures { (fs : List FlatFunc) (f : FlatFunc) → IsTrue (is_well_formed_function fs f) →
        IsTrue (are_below f.names (function_names f)) }
{}
