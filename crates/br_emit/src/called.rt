// Which functions of a program are called.

ghost use Rattle.std.specs.Prelude.{◌≡◌, ◌≤◌, ◌++◌, ◌∷◌, [], false};
ghost use Rattle.std.specs.Prelude.{replicate, length, vec_capacity};
ghost use Rattle.std.specs.List.{flat_map};
ghost use Rattle.br_flatimp.specs.Parts.{gathered, own_callees, callees};
ghost use Rattle.br_emit.specs.Marks.{marked};

use br_flatimp::{FlatFunc, Stmt};

/// A flag for each function, which says whether a function calls it, in place of those before.
pub fn flag_called(flags: &mut Vec<bool>, funcs: &[FlatFunc])
    requires room { length funcs.now ≤ vec_capacity flags.old }
    ensures flags { flags.new.items
        ≡ marked (replicate (length funcs.now) false) (flat_map callees funcs.now) }
    ensures capacity { vec_capacity flags.new ≡ vec_capacity flags.old }
{
    unflag(flags, funcs.len());
    mark_program(flags.as_mut_slice(), funcs);
}

// So many flags that are not set, in place of those before.
fn unflag(flags: &mut Vec<bool>, count: usize)
    requires { count ≤ vec_capacity flags.old }
    ensures flags { flags.new.items ≡ replicate count false }
    ensures capacity { vec_capacity flags.new ≡ vec_capacity flags.old }
{
    flags.clear();
    for _n in 0..count {
        flags.push_reserved(false);
    }
}

// Sets the flags of the functions that functions call.
fn mark_program(flags: &mut [bool], funcs: &[FlatFunc])
    ensures { flags.new ≡ marked flags.old (flat_map callees funcs.now) }
{
    for f in funcs {
        mark_function(flags, f);
    }
}

fn mark_function(flags: &mut [bool], f: &FlatFunc)
    ensures { flags.new ≡ marked flags.old (callees f.now) }
{
    mark_calls(flags, f.body.as_slice());
}

// Sets the flags of the functions that statements call.
#[cycle(calling)]
fn mark_calls(flags: &mut [bool], body: &[Stmt])
    ensures { flags.new ≡ marked flags.old (flat_map (gathered own_callees) body.now) }
{
    for s in body {
        mark_called(flags, s);
    }
}

// Sets the flags of the functions that two parts call.
#[cycle(calling)]
fn mark_both(flags: &mut [bool], first: &[Stmt], second: &[Stmt])
    ensures { flags.new ≡ marked flags.old (flat_map (gathered own_callees) first.now
        ++ flat_map (gathered own_callees) second.now) }
{
    mark_calls(flags, first);
    mark_calls(flags, second);
}

// Sets the flags of the functions that a statement calls.
#[cycle(calling)]
fn mark_called(flags: &mut [bool], s: &Stmt)
    ensures { flags.new ≡ marked flags.old (gathered own_callees s.now) }
{
    match s {
        Stmt::Call(_, g, _) => mark(flags, *g),
        Stmt::Stackalloc(_, _, body) => mark_calls(flags, body.as_slice()),
        Stmt::If(_, first, second) => mark_both(flags, first.as_slice(), second.as_slice()),
        Stmt::Loop(first, _, last) => mark_both(flags, first.as_slice(), last.as_slice()),
        Stmt::Lit(_, _)
        | Stmt::Copy(_, _)
        | Stmt::Op(_, _, _, _)
        | Stmt::Load(_, _, _, _)
        | Stmt::Store(_, _, _, _)
        | Stmt::Table(_, _, _, _)
        | Stmt::Read(_, _)
        | Stmt::Write(_, _) => {}
    }
}

// Sets the flag of a number, where it has one.
fn mark(flags: &mut [bool], x: u32)
    ensures { flags.new ≡ marked flags.old (x ∷ []) }
{
    if (x as usize) < flags.len() {
        flags[x as usize] = true;
    }
}
