// The summary of statements, and the turns of the loops in them.

ghost use Rattle.std.specs.Prelude.{◌≡◌, ◌++◌, IfOk, IsTrue, OnOk, map};
ghost use Rattle.std.specs.List.{flat_map};
ghost use Rattle.br_flatimp.specs.Liveness.{before, before_all};
ghost use Rattle.br_flatimp.specs.Parts.{statement_names};
ghost use Rattle.br_flatimp.specs.Values.{Names};
ghost use Rattle.br_flatimp.specs.WellFormed.{are_below};
ghost use Rattle.br_live.specs.Summaries.{handed};
ghost use Rattle.br_live.specs.Turns.{all_turns, turn_of, turns_of};

use crate::summary::Summary;
use crate::turn::Turn;
use br_base::NoMemory;
use br_flatimp::Stmt;
use std::alloc::Global;

/// The summary of statements in turn. The turns of the loops in them are added,
/// that of a loop after those in its parts.
#[cycle(statement)]
pub fn summary_of_all(
    alloc: Global,
    names: u32,
    body: &[Stmt],
    turns: &mut Vec<Turn>,
) -> Result<Summary, NoMemory>
    requires { IsTrue (are_below names (flat_map statement_names body.now)) }
    ensures bound { IfOk result (λ s. s.reads.bound ≡ names) }
    ensures hands { IfOk result
        (λ s. (after : Names) → handed s after ≡ before_all body.now after) }
    ensures turns { OnOk result
        (map turn_of turns.new.items ≡ map turn_of turns.old.items ++ all_turns names body.now) }
{
    let mut so_far = Summary::new(alloc, names)?;
    for s in body {
        let mut one = summary_of(alloc, names, s, turns)?;
        one.prepend(&so_far);
        so_far = one;
    }
    Ok(so_far)
}

#[cycle(statement)]
fn summary_of(
    alloc: Global,
    names: u32,
    s: &Stmt,
    turns: &mut Vec<Turn>,
) -> Result<Summary, NoMemory>
    requires { IsTrue (are_below names (statement_names s.now)) }
    ensures bound { IfOk result (λ r. r.reads.bound ≡ names) }
    ensures hands { IfOk result (λ r. (after : Names) → handed r after ≡ before s.now after) }
    ensures turns { OnOk result
        (map turn_of turns.new.items ≡ map turn_of turns.old.items ++ turns_of names s.now) }
{
    match s {
        Stmt::Stackalloc(_, _, body) => {
            let mut one = summary_of_all(alloc, names, body.as_slice(), turns)?;
            one.put_own(s);
            Ok(one)
        }
        Stmt::If(_, first, second) => {
            let mut one = summary_of_all(alloc, names, first.as_slice(), turns)?;
            let other = summary_of_all(alloc, names, second.as_slice(), turns)?;
            one.join(&other);
            one.put_own(s);
            Ok(one)
        }
        Stmt::Loop(first, _, last) => {
            let opening = summary_of_all(alloc, names, first.as_slice(), turns)?;
            let closing = summary_of_all(alloc, names, last.as_slice(), turns)?;
            let mut again = opening.copy(alloc)?;
            again.prepend(&closing);
            let mut one = Summary::new(alloc, names)?;
            one.read_first(&again);
            one.put_own(s);
            one.prepend(&opening);
            turns.push(Turn { opening, again })?;
            Ok(one)
        }
        Stmt::Lit(_, _)
        | Stmt::Copy(_, _)
        | Stmt::Op(_, _, _, _)
        | Stmt::Load(_, _, _, _)
        | Stmt::Store(_, _, _, _)
        | Stmt::Table(_, _, _, _)
        | Stmt::Call(_, _, _)
        | Stmt::Read(_, _)
        | Stmt::Write(_, _) => {
            let mut one = Summary::new(alloc, names)?;
            one.put_own(s);
            Ok(one)
        }
    }
}
