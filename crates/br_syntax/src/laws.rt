// What holds of every list of trees and of every program.

ghost use Rattle.std.specs.Prelude.{List};
ghost use Rattle.br_sexpr.specs.declared.tree.Tree.{Tree};
ghost use Rattle.br_syntax.specs.declared.program.Func.{Func};
ghost use Rattle.br_syntax.specs.Laws.{HasMeaning, AtMostOneProgram, AtMostOneFault, NeverBoth};
ghost use Rattle.br_syntax.specs.Laws.{KeepsLimits, FaultIsLowest, NoneStands, UnplacedAgain};

/// Each list of trees stands for a program or has a lowest fault of shape, never both, and one
/// alone. The fault is the lowest of all faults of shape that stand in the trees, and where trees
/// stand for a program, none does. A program that trees stand for keeps the limits of programs.
#[tactic(auto, using(crate::proofs::Meanings::laws))]
pub fn one_meaning()
    ensures some { (trees : List Tree) → HasMeaning trees }
    ensures one_program { (trees : List Tree) → AtMostOneProgram trees }
    ensures one_fault { (trees : List Tree) → AtMostOneFault trees }
    ensures never_both { (trees : List Tree) → NeverBoth trees }
    ensures limits { (trees : List Tree) → KeepsLimits trees }
    ensures lowest { (trees : List Tree) → FaultIsLowest trees }
    ensures none_stands { (trees : List Tree) → NoneStands trees }
{}

/// A program without its offsets is equal to the program up to offsets.
#[tactic(auto, using(crate::proofs::Meanings::unplaced_again))]
pub fn offsets_left_out()
    ensures { (funcs : List Func) → UnplacedAgain funcs }
{}
