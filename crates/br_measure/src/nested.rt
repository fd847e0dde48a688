// The largest sum of buffer sizes nested in one another, computed in 32 bits. A sum past the type's
// end stays at the type's end.

ghost use Rattle.std.specs.Prelude.{◌≡◌, ℕ, min, map};
ghost use Rattle.br_syntax.specs.declared.program.Cmd.TheFolds.{fold-Cmd};
ghost use Rattle.br_measure.specs.Measure.{nested_buffers, nested_step, largest};

use br_syntax::{Cmd, Func};

/// The largest sum of nested buffer sizes in a function, or 4,294,967,295 where that is less.
pub fn nested_buffers(f: &Func) -> u32
    ensures { result ≡ min (nested_buffers f.now) 4294967295 }
{
    commands(f.body.as_slice())
}

#[cycle(nested)]
#[tactic(auto, using(crate::proofs::Largest::largest_item))]
fn commands(cs: &[Cmd]) -> u32
    ensures { result ≡ min (largest (map (fold-Cmd ℕ nested_step) cs.now)) 4294967295 }
{
    let mut most = 0;
    for c in cs {
        most = command(c).max(most);
    }
    most
}

#[cycle(nested)]
fn command(c: &Cmd) -> u32
    ensures { result ≡ min (fold-Cmd ℕ nested_step c.now) 4294967295 }
{
    match c {
        Cmd::Stackalloc(_, size, body) => commands(body.as_slice()).saturating_add(*size),
        Cmd::If(_, first, second) => commands(first.as_slice()).max(commands(second.as_slice())),
        Cmd::While(_, body) | Cmd::Seq(body) => commands(body.as_slice()),
        Cmd::Skip
        | Cmd::Set(_, _)
        | Cmd::Unset(_)
        | Cmd::Store(_, _, _)
        | Cmd::Call { .. }
        | Cmd::Interact { .. } => 0,
    }
}
