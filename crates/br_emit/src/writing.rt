// The code of statements.

ghost use Rattle.std.specs.Prelude.{◌≡◌, ◌++◌, ◌<◌, ℕ, IsTrue, length, drop};
ghost use Rattle.std.specs.List.{list_all};
ghost use Rattle.br_flatimp.specs.Parts.{throughout};
ghost use Rattle.br_emit.specs.Code.{AllFit, branching, items_of, all_items};
ghost use Rattle.br_emit.specs.Code.{if_items, loop_items, place_items};
ghost use Rattle.br_emit.specs.Sizes.{sized, sized_all, sized_if, sized_loop};
ghost use Rattle.br_emit.specs.Buffer.{appended};
ghost use Rattle.br_emit.specs.Ready.{Ready, HasRegisters, InReach, is_encodable, aimed};

use crate::code::Code;
use crate::constant_tables::table;
use crate::jumps::{call, if_head, if_middle, loop_back, loop_head};
use crate::numbers::Left;
use crate::straight::{constant, copy, load_op, operation, place, store_op};
use crate::targets::Targets;
use br_flatimp::{Cond, Stmt};
use br_rv32im::{Ins, LoadOp, StoreOp};

/// The code of statements for so many bytes that are free above the stack pointer. The first
/// lengths that are left are those of the parts in them, and are taken.
#[cycle(writing)]
pub fn write_all(code: &mut Code, targets: &Targets, lengths: &mut Left, body: &[Stmt], free: u32)
    requires targets { (g : ℕ) → InReach ((aimed targets.now).at g) }
    requires form { IsTrue (list_all (throughout is_encodable) body.now) }
    requires ready { Ready (all_items (aimed targets.now) body.now free)
        (sized_all targets.now.near body.now free).parts code.old lengths.old }
    ensures code { code.new ≡ appended code.old (all_items (aimed targets.now) body.now free) }
    ensures fit { AllFit (all_items (aimed targets.now) body.now free) }
    ensures lengths { lengths.new
        ≡ drop (length (sized_all targets.now.near body.now free).parts) lengths.old }
{
    for s in body {
        write(code, targets, lengths, s, free);
    }
}

#[cycle(writing)]
fn write(code: &mut Code, targets: &Targets, lengths: &mut Left, s: &Stmt, free: u32)
    requires targets { (g : ℕ) → InReach ((aimed targets.now).at g) }
    requires form { IsTrue (throughout is_encodable s.now) }
    requires ready { Ready (items_of (aimed targets.now) s.now free)
        (sized targets.now.near s.now free).parts code.old lengths.old }
    ensures code { code.new ≡ appended code.old (items_of (aimed targets.now) s.now free) }
    ensures fit { AllFit (items_of (aimed targets.now) s.now free) }
    ensures lengths { lengths.new
        ≡ drop (length (sized targets.now.near s.now free).parts) lengths.old }
{
    match s {
        Stmt::Lit(x, n) => constant(code, *x, *n),
        Stmt::Copy(x, y) => copy(code, *x, *y),
        Stmt::Op(x, op, y, z) => operation(code, *x, *op, *y, *z),
        Stmt::Load(x, size, y, offset) => code.put(Ins::Load(load_op(*size), *x, *y, *offset)),
        Stmt::Store(size, y, z, offset) => code.put(Ins::Store(store_op(*size), *y, *z, *offset)),
        Stmt::Table(x, size, bytes, y) => table(code, *x, *size, bytes.as_slice(), *y),
        Stmt::Stackalloc(x, n, body) => {
            write_buffer(
                code,
                targets,
                lengths,
                *x,
                body.as_slice(),
                free.saturating_sub(*n),
            )
        }
        Stmt::If(test, first, second) => {
            write_if(
                code,
                targets,
                lengths,
                *test,
                first.as_slice(),
                second.as_slice(),
                free,
            )
        }
        Stmt::Loop(first, test, last) => {
            write_loop(
                code,
                targets,
                lengths,
                *test,
                first.as_slice(),
                last.as_slice(),
                free,
            )
        }
        Stmt::Call(_, g, _) => call(code, targets.near(), targets.at(*g as usize)),
        Stmt::Read(x, y) => code.put(Ins::Load(LoadOp::Lw, *x, *y, 0)),
        Stmt::Write(y, z) => code.put(Ins::Store(StoreOp::Sw, *y, *z, 0)),
    }
}

// A buffer's code, where so many bytes are free below it.
#[cycle(writing)]
fn write_buffer(
    code: &mut Code,
    targets: &Targets,
    lengths: &mut Left,
    x: u32,
    body: &[Stmt],
    free: u32,
)
    requires register { x < 32 }
    requires targets { (g : ℕ) → InReach ((aimed targets.now).at g) }
    requires form { IsTrue (list_all (throughout is_encodable) body.now) }
    requires ready { Ready (place_items x free ++ all_items (aimed targets.now) body.now free)
        (sized_all targets.now.near body.now free).parts code.old lengths.old }
    ensures code { code.new
        ≡ appended code.old (place_items x free ++ all_items (aimed targets.now) body.now free) }
    ensures fit { AllFit (place_items x free ++ all_items (aimed targets.now) body.now free) }
    ensures lengths { lengths.new
        ≡ drop (length (sized_all targets.now.near body.now free).parts) lengths.old }
{
    place(code, x, free);
    write_all(code, targets, lengths, body, free);
}

#[cycle(writing)]
fn write_if(
    code: &mut Code,
    targets: &Targets,
    lengths: &mut Left,
    test: Cond,
    first: &[Stmt],
    second: &[Stmt],
    free: u32,
)
    requires targets { (g : ℕ) → InReach ((aimed targets.now).at g) }
    requires registers { HasRegisters (branching test) }
    requires first { IsTrue (list_all (throughout is_encodable) first.now) }
    requires second { IsTrue (list_all (throughout is_encodable) second.now) }
    requires ready { Ready (if_items (branching test) (all_items (aimed targets.now) first.now free)
        (all_items (aimed targets.now) second.now free)) (sized_if (sized_all targets.now.near
        first.now free) (sized_all targets.now.near second.now free)).parts code.old lengths.old }
    ensures code { code.new ≡ appended code.old (if_items (branching test) (all_items
        (aimed targets.now) first.now free) (all_items (aimed targets.now) second.now free)) }
    ensures fit { AllFit (if_items (branching test) (all_items (aimed targets.now) first.now free)
        (all_items (aimed targets.now) second.now free)) }
    ensures lengths { lengths.new ≡ drop (length (sized_if (sized_all targets.now.near first.now
        free) (sized_all targets.now.near second.now free)).parts) lengths.old }
{
    let a = lengths.next();
    let b = lengths.next();
    if_head(code, test, a, b);
    write_all(code, targets, lengths, first, free);
    if_middle(code, a, b);
    write_all(code, targets, lengths, second, free);
}

#[cycle(writing)]
fn write_loop(
    code: &mut Code,
    targets: &Targets,
    lengths: &mut Left,
    test: Cond,
    first: &[Stmt],
    last: &[Stmt],
    free: u32,
)
    requires targets { (g : ℕ) → InReach ((aimed targets.now).at g) }
    requires registers { HasRegisters (branching test) }
    requires first { IsTrue (list_all (throughout is_encodable) first.now) }
    requires last { IsTrue (list_all (throughout is_encodable) last.now) }
    requires ready { Ready (loop_items (all_items (aimed targets.now) first.now free)
        (branching test) (all_items (aimed targets.now) last.now free))
        (sized_loop (sized_all targets.now.near first.now free)
        (sized_all targets.now.near last.now free)).parts code.old lengths.old }
    ensures code { code.new ≡ appended code.old (loop_items (all_items (aimed targets.now) first.now
        free) (branching test) (all_items (aimed targets.now) last.now free)) }
    ensures fit { AllFit (loop_items (all_items (aimed targets.now) first.now free) (branching test)
        (all_items (aimed targets.now) last.now free)) }
    ensures lengths { lengths.new ≡ drop (length (sized_loop (sized_all targets.now.near first.now
        free) (sized_all targets.now.near last.now free)).parts) lengths.old }
{
    let b = lengths.next();
    let a = lengths.next();
    loop_head(code, b);
    write_all(code, targets, lengths, last, free);
    write_all(code, targets, lengths, first, free);
    loop_back(code, test, b + a);
}
