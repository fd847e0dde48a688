// What is live before statements, when it is known what is live after them.

ghost use Rattle.std.specs.Prelude.{◌≡◌, ℕ, ◌<◌, ◌&&◌, ◌||◌, not};
ghost use Rattle.br_flatimp.specs.Liveness.{before, before_all, is_in, nothing};
ghost use Rattle.br_flatimp.specs.Values.{Names};
ghost use Rattle.br_emit.specs.Registers.{handed, has, own_read, own_written};

use crate::sets::{EVERY, all_of, common, union, without};
use br_flatimp::{Cond, Operand, Stmt};

/// The registers that statements may read before they write them, and
/// those that they may leave as they were.
#[derive(Clone, Copy)]
pub struct Flow {
    pub reads: u32,
    pub keeps: u32,
}

/// The registers that a statement writes, its parts aside.
#[tactic(auto, using(crate::proofs::Own::own_lists))]
fn written_by(s: &Stmt) -> u32
    ensures { (x : ℕ) → x < 32 → has result x ≡ is_in (own_written s.now) x }
{
    match s {
        Stmt::Lit(x, _)
        | Stmt::Copy(x, _)
        | Stmt::Op(x, _, _, _)
        | Stmt::Load(x, _, _, _)
        | Stmt::Table(x, _, _, _)
        | Stmt::Stackalloc(x, _, _)
        | Stmt::Read(x, _) => all_of(&[*x]),
        Stmt::Call(xs, _, _) => all_of(xs.as_slice()),
        Stmt::Store(_, _, _, _) | Stmt::Write(_, _) | Stmt::If(_, _, _) | Stmt::Loop(_, _, _) =>
            all_of(&[]),
    }
}

/// The registers that a statement reads, its parts aside.
#[tactic(auto, using(crate::proofs::Own::own_lists))]
pub fn read_by(s: &Stmt) -> u32
    ensures { (x : ℕ) → x < 32 → has result x ≡ is_in (own_read s.now) x }
{
    match s {
        Stmt::Lit(_, _) | Stmt::Stackalloc(_, _, _) => all_of(&[]),
        Stmt::Copy(_, y) | Stmt::Load(_, _, y, _) | Stmt::Table(_, _, _, y) | Stmt::Read(_, y) =>
            all_of(&[*y]),
        Stmt::Op(_, _, y, Operand::Name(z)) => all_of(&[*y, *z]),
        Stmt::Op(_, _, y, Operand::Const(_)) => all_of(&[*y]),
        Stmt::Store(_, y, z, _) | Stmt::Write(y, z) => all_of(&[*y, *z]),
        Stmt::If(Cond::NonZero(y), _, _) | Stmt::Loop(_, Cond::NonZero(y), _) => all_of(&[*y]),
        Stmt::If(Cond::Compare(_, y, z), _, _) | Stmt::Loop(_, Cond::Compare(_, y, z), _) => {
            all_of(&[*y, *z])
        }
        Stmt::Call(_, _, ys) => all_of(ys.as_slice()),
    }
}

// No statements.
fn still() -> Flow
    ensures { (after : Names) (x : ℕ) → x < 32 → handed result after x ≡ after x }
{
    Flow {
        reads: 0,
        keeps: EVERY,
    }
}

// A statement that writes and reads these.
fn own(writes: u32, reads: u32) -> Flow
    ensures { (after : Names) (x : ℕ) → x < 32 →
        handed result after x ≡ ((after x && not (has writes x)) || has reads x) }
{
    Flow {
        reads,
        keeps: without(EVERY, writes),
    }
}

// Statements before others.
fn then(first: Flow, rest: Flow) -> Flow
    ensures { (after : Names) (x : ℕ) → handed result after x ≡ handed first (handed rest after) x }
{
    Flow {
        reads: union(first.reads, common(rest.reads, first.keeps)),
        keeps: common(rest.keeps, first.keeps),
    }
}

// Either of two lists of statements.
fn either(a: Flow, b: Flow) -> Flow
    ensures { (after : Names) (x : ℕ) →
        handed result after x ≡ (handed a after x || handed b after x) }
{
    Flow {
        reads: union(a.reads, b.reads),
        keeps: union(a.keeps, b.keeps),
    }
}

/// What is live before statements, by what is live after them.
pub fn apply(w: Flow, after: u32) -> u32
    ensures { (x : ℕ) → has result x ≡ handed w (has after) x }
{
    union(w.reads, common(after, w.keeps))
}

/// What is live at the test of a loop that reads these, by what is live after it.
pub fn at_test(first: Flow, test: u32, last: Flow) -> Flow
    ensures { (after : Names) (x : ℕ) → x < 32 →
        handed result after x ≡ (has test x || (after x || handed last (handed first nothing) x)) }
{
    Flow {
        reads: union(test, apply(last, first.reads)),
        keeps: EVERY,
    }
}

/// What statements do in turn.
#[cycle(flowing)]
pub fn flow_of_all(body: &[Stmt]) -> Flow
    ensures { (after : Names) (x : ℕ) → x < 32 →
        handed result after x ≡ before_all body.now after x }
{
    let mut so_far = still();
    for s in body {
        so_far = then(so_far, flow_of(s));
    }
    so_far
}

/// What a statement does.
#[cycle(flowing)]
pub fn flow_of(s: &Stmt) -> Flow
    ensures { (after : Names) (x : ℕ) → x < 32 → handed result after x ≡ before s.now after x }
{
    let written = written_by(s);
    let read = read_by(s);
    match s {
        Stmt::Stackalloc(_, _, body) => then(own(written, read), flow_of_all(body.as_slice())),
        Stmt::If(_, first, second) => then(
            own(written, read),
            either(
                flow_of_all(first.as_slice()),
                flow_of_all(second.as_slice()),
            ),
        ),
        Stmt::Loop(first, _, last) => flow_of_loop(
            flow_of_all(first.as_slice()),
            read,
            flow_of_all(last.as_slice()),
        ),
        Stmt::Lit(_, _)
        | Stmt::Copy(_, _)
        | Stmt::Op(_, _, _, _)
        | Stmt::Load(_, _, _, _)
        | Stmt::Store(_, _, _, _)
        | Stmt::Table(_, _, _, _)
        | Stmt::Call(_, _, _)
        | Stmt::Read(_, _)
        | Stmt::Write(_, _) => own(written, read),
    }
}

// What a loop does, by what its parts do and what its test reads.
fn flow_of_loop(first: Flow, test: u32, last: Flow) -> Flow
    ensures { (after : Names) (x : ℕ) → x < 32 → handed result after x
        ≡ handed first (λ y. has test y || (after y || handed last (handed first nothing) y)) x }
{
    then(first, at_test(first, test, last))
}
