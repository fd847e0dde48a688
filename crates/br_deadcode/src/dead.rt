// Statements that do nothing which is seen.

ghost use Rattle.std.specs.Prelude.{◌≡◌, IsTrue};
ghost use Rattle.br_flatimp.specs.Liveness.{nothing};
ghost use Rattle.br_flatimp.specs.Parts.{statement_names};
ghost use Rattle.br_flatimp.specs.WellFormed.{are_below};
ghost use Rattle.br_live.specs.Summaries.{handed};
ghost use Rattle.br_deadcode.specs.Sweeps.{idle};

use br_flatimp::Stmt;
use br_live::Summary;

/// Whether a statement only writes a name that is not live after it.
#[tactic(auto, using(crate::proofs::Idle::idles))]
pub(crate) fn is_idle(so_far: &Summary, s: &Stmt) -> bool
    requires { IsTrue (are_below so_far.now.reads.bound (statement_names s.now)) }
    ensures { result ≡ idle s.now (handed so_far.now nothing) }
{
    match s {
        Stmt::Lit(x, _)
        | Stmt::Copy(x, _)
        | Stmt::Op(x, _, _, _)
        | Stmt::Load(x, _, _, _)
        | Stmt::Table(x, _, _, _) => !so_far.reads.contains(*x),
        Stmt::Store(_, _, _, _)
        | Stmt::Stackalloc(_, _, _)
        | Stmt::If(_, _, _)
        | Stmt::Loop(_, _, _)
        | Stmt::Call(_, _, _)
        | Stmt::Read(_, _)
        | Stmt::Write(_, _) => false,
    }
}
