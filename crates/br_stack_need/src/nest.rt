// The largest sum of buffer sizes nested in one another, computed in 32 bits. A sum past the type's
// end stays at the type's end.

ghost use Rattle.std.specs.Prelude.{◌≡◌, ℕ, min, map};
ghost use Rattle.br_flatimp.specs.Sizes.{largest, nest, statement_nest};

use br_flatimp::{FlatFunc, Stmt};

/// The largest sum of nested buffer sizes in a function, or 4,294,967,295 where that is less.
pub fn nest(f: &FlatFunc) -> u32
    ensures { result ≡ min 4294967295 (nest f.now) }
{
    largest_nest(f.body.as_slice())
}

#[cycle(nest)]
#[tactic(auto, using(crate::proofs::Items::largest_item))]
fn largest_nest(body: &[Stmt]) -> u32
    ensures { result ≡ min 4294967295 (largest (map statement_nest body.now)) }
{
    let mut most = 0;
    for s in body {
        most = statement_nest(s).max(most);
    }
    most
}

#[cycle(nest)]
#[tactic(auto, using(crate::proofs::Statements::nest_of_parts))]
fn statement_nest(s: &Stmt) -> u32
    ensures { result ≡ min 4294967295 (statement_nest s.now) }
{
    match s {
        Stmt::Stackalloc(_, n, body) => largest_nest(body.as_slice()).saturating_add(*n),
        Stmt::If(_, first, second) | Stmt::Loop(first, _, second) => {
            largest_nest(first.as_slice()).max(largest_nest(second.as_slice()))
        }
        Stmt::Lit(_, _)
        | Stmt::Copy(_, _)
        | Stmt::Op(_, _, _, _)
        | Stmt::Load(_, _, _, _)
        | Stmt::Store(_, _, _, _)
        | Stmt::Table(_, _, _, _)
        | Stmt::Call(_, _, _)
        | Stmt::Read(_, _)
        | Stmt::Write(_, _) => 0,
    }
}
