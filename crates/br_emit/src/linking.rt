// Whether code changes x1, which holds the address that a function returns to.

ghost use Rattle.std.specs.Prelude.{◌≡◌, ◌≤◌, ◌&&◌, true};
ghost use Rattle.std.specs.List.{list_all};
ghost use Rattle.br_flatimp.specs.Parts.{throughout};
ghost use Rattle.br_flatimp.specs.Sizes.{nest};
ghost use Rattle.br_emit.specs.Code.{keeps_link, links};

use crate::functions::nest_all;
use br_flatimp::{FlatFunc, Stmt};

/// Whether the code of a function may change x1, where the whole code is near or not.
pub fn links(near: bool, f: &FlatFunc) -> bool
    requires { nest f.now ≤ 1048576 }
    ensures { result ≡ links near f.now }
{
    let kept = keeps_all(f.body.as_slice());
    let buffers = nest_all(f.body.as_slice());
    !near || (!kept || 2047 < buffers)
}

// Whether statements leave x1 as it was, far jumps aside.
#[cycle(linking)]
fn keeps_all(body: &[Stmt]) -> bool
    ensures { result ≡ list_all (throughout keeps_link) body.now }
{
    let mut kept = true;
    for s in body {
        let one = keeps(s);
        kept = both(kept, one);
    }
    kept
}

#[cycle(linking)]
fn keeps_two(first: &[Stmt], second: &[Stmt]) -> bool
    ensures { result ≡ (list_all (throughout keeps_link) first.now
        && list_all (throughout keeps_link) second.now) }
{
    let one = keeps_all(first);
    let other = keeps_all(second);
    both(one, other)
}

#[cycle(linking)]
fn keeps(s: &Stmt) -> bool
    ensures { result ≡ throughout keeps_link s.now }
{
    match s {
        Stmt::Table(_, _, _, _) | Stmt::Call(_, _, _) => false,
        Stmt::Stackalloc(_, _, body) => keeps_all(body.as_slice()),
        Stmt::If(_, first, second) => keeps_two(first.as_slice(), second.as_slice()),
        Stmt::Loop(first, _, last) => keeps_two(first.as_slice(), last.as_slice()),
        Stmt::Lit(_, _)
        | Stmt::Copy(_, _)
        | Stmt::Op(_, _, _, _)
        | Stmt::Load(_, _, _, _)
        | Stmt::Store(_, _, _, _)
        | Stmt::Read(_, _)
        | Stmt::Write(_, _) => true,
    }
}

fn both(a: bool, b: bool) -> bool
    ensures { result ≡ (a && b) }
{
    a && b
}
