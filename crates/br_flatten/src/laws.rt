// What holds of flat programs that come from the source. These functions do nothing: each
// contract is a law of the definitions.

ghost use Rattle.std.specs.Prelude.{List};
ghost use Rattle.br_flatimp.specs.Refines.{Refines, meaning};
ghost use Rattle.br_flatimp.specs.declared.program.FlatFunc.{FlatFunc};
ghost use Rattle.br_flatten.specs.Meaning.{source_meaning};
ghost use Rattle.br_flatten.specs.Programs.{AreFlat};
ghost use Rattle.br_syntax.specs.NameFaults.{HasNoNameFault};
ghost use Rattle.br_syntax.specs.declared.program.Func.{Func};

/// The flat statements of a program none of whose names is at fault refine it,
/// whichever literals its functions hold.
pub fn flat_programs_refine()
    ensures { (fs : List Func) (qs : List FlatFunc) →
        HasNoNameFault fs → AreFlat fs fs qs → Refines (meaning qs) (source_meaning fs) }
{}
