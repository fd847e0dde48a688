// What holds of programs in their simplest form. These functions do nothing: each
// contract is a law of the definitions.

ghost use Rattle.std.specs.Prelude.{◌≡◌, ◌≤◌, ℕ, List};
ghost use Rattle.std.specs.List.{Contains};
ghost use Rattle.br_measure.specs.Bulk.{function_bulk};
ghost use Rattle.br_measure.specs.Measure.{nested_buffers};
ghost use Rattle.br_measure.specs.Paths.{callees};
ghost use Rattle.br_simplify.specs.Simple.{simple_function, simple_program};
ghost use Rattle.br_source_meaning.specs.Calls.{function_of, run_function};
ghost use Rattle.br_source_meaning.specs.Runs.{Callee};
ghost use Rattle.br_source_meaning.specs.Values.{Name};
ghost use Rattle.br_syntax.specs.declared.program.Func.{Func};
ghost use Rattle.br_syntax.specs.NameFaults.{HasNoNameFault};
ghost use Rattle.br_syntax.specs.Shape.{IsShaped};

/// Each function does the same, with the same choices and as much fuel.
pub fn simple_programs_mean_the_same()
    ensures function { (call : Callee) (f : Func) →
        run_function call (simple_function f) ≡ run_function call f }
    ensures calls { (fs : List Func) (depth : ℕ) →
        function_of (simple_program fs) depth ≡ function_of fs depth }
{}

/// Names that are not at fault, and limits that are kept.
pub fn simple_programs_keep_rules()
    ensures names { (fs : List Func) → HasNoNameFault fs → HasNoNameFault (simple_program fs) }
    ensures limits { (fs : List Func) → IsShaped fs → IsShaped (simple_program fs) }
{}

/// No function is larger, has more nested in its buffers, or calls another.
pub fn simple_programs_are_no_larger()
    ensures bulk { (f : Func) → function_bulk (simple_function f) ≤ function_bulk f }
    ensures nested { (f : Func) → nested_buffers (simple_function f) ≤ nested_buffers f }
    ensures callees { (f : Func) (x : Name) →
        Contains (callees (simple_function f)) x → Contains (callees f) x }
{}
