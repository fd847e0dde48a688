// The code of functions.

ghost use Rattle.std.specs.Prelude.{◌≡◌, ◌+◌, ◌-◌, ◌*◌, ◌<◌, ◌≤◌, ◌++◌, ◌∷◌};
ghost use Rattle.std.specs.Prelude.{[], ℕ, IsTrue, All, length, map, max};
ghost use Rattle.std.specs.List.{list_all};
ghost use Rattle.br_flatimp.specs.Parts.{throughout};
ghost use Rattle.br_flatimp.specs.Sizes.{largest, statement_nest, nest};
ghost use Rattle.br_rv32im.specs.declared.instruction.Ins.TheVariants.{Ecall};
ghost use Rattle.br_words.specs.Layout.{stack_end};
ghost use Rattle.br_emit.specs.Code.{AllFit, Does, all_items, constant_items};
ghost use Rattle.br_emit.specs.Code.{callable_items, direct_items};
ghost use Rattle.br_emit.specs.Sizes.{sized_all, framed_items, callable_words, direct_words};
ghost use Rattle.br_emit.specs.Buffer.{appended, noted};
ghost use Rattle.br_emit.specs.Registers.{forgets_of};
ghost use Rattle.br_emit.specs.Ready.{Ready, InReach, is_encodable, aimed};

use crate::code::Code;
use crate::framing::{exit, move_stack, move_words, restore, save};
use crate::measuring::{constant_words, measure_all};
use crate::numbers::{Left, Numbers};
use crate::registers::framed;
use crate::straight::constant;
use crate::targets::Targets;
use crate::writing::write_all;
use br_flatimp::{FlatFunc, Stmt};
use br_rv32im::Ins;
use br_words::STACK_END;

// The stack pointer (RISC-V calling conventions, integer register convention).
const STACK_POINTER: u32 = 2;

/// The largest sum of the sizes of buffers nested in one another in statements.
#[cycle(nesting)]
pub fn nest_all(body: &[Stmt]) -> u32
    requires { largest (map statement_nest body.now) ≤ 1048576 }
    ensures { result ≡ largest (map statement_nest body.now) }
{
    let mut most = 0;
    for s in body {
        most = nest_of(s).max(most);
    }
    most
}

#[cycle(nesting)]
fn nest_two(first: &[Stmt], second: &[Stmt]) -> u32
    requires { max (largest (map statement_nest first.now))
        (largest (map statement_nest second.now)) ≤ 1048576 }
    ensures { result
        ≡ max (largest (map statement_nest first.now)) (largest (map statement_nest second.now)) }
{
    nest_all(first).max(nest_all(second))
}

#[cycle(nesting)]
fn nest_of(s: &Stmt) -> u32
    requires { statement_nest s.now ≤ 1048576 }
    ensures { result ≡ statement_nest s.now }
{
    match s {
        Stmt::Stackalloc(_, n, body) => *n + nest_all(body.as_slice()),
        Stmt::If(_, first, second) => nest_two(first.as_slice(), second.as_slice()),
        Stmt::Loop(first, _, last) => nest_two(first.as_slice(), last.as_slice()),
        Stmt::Lit(_, _)
        | Stmt::Copy(_, _)
        | Stmt::Op(_, _, _, _)
        | Stmt::Load(_, _, _, _)
        | Stmt::Store(_, _, _, _)
        | Stmt::Table(_, _, _, _)
        | Stmt::Call(_, _, _)
        | Stmt::Read(_, _)
        | Stmt::Write(_, _) => 0,
    }
}

/// The words of the code of the function numbered n, where it is called, up to its entry.
#[tactic(auto, using(crate::proofs::Saving::framed_few))]
pub fn callable_words(
    lengths: &mut Numbers,
    near: bool,
    sets: &[u32],
    n: usize,
    f: &FlatFunc,
) -> u32
    requires nest { nest f.now ≤ 1048576 }
    requires room { length (sized_all near f.now.body (nest f.now)).parts ≤ lengths.old.room }
    requires few { callable_words near (forgets_of sets.now) n f.now ≤ 1048576 }
    ensures words { result ≡ callable_words near (forgets_of sets.now) n f.now }
    ensures lengths { lengths.new
        ≡ noted lengths.old (sized_all near f.now.body (nest f.now)).parts }
{
    let nest = nest_all(f.body.as_slice());
    let count = framed(near, sets, n, f).as_slice().len() as u32;
    let bytes = 4 * count;
    let frame = move_words(0u32.wrapping_sub(bytes)) + 2 * count + move_words(bytes);
    let body = measure_all(lengths, near, f.body.as_slice(), nest);
    frame + move_words(0u32.wrapping_sub(nest)) + body + move_words(nest) + 1
}

/// The words of the code of a function that nobody calls.
pub fn direct_words(lengths: &mut Numbers, near: bool, f: &FlatFunc) -> u32
    requires nest { nest f.now ≤ 1048576 }
    requires room { length (sized_all near f.now.body (nest f.now)).parts ≤ lengths.old.room }
    requires few { direct_words near f.now ≤ 1048576 }
    ensures words { result ≡ direct_words near f.now }
    ensures lengths { lengths.new
        ≡ noted lengths.old (sized_all near f.now.body (nest f.now)).parts }
{
    let nest = nest_all(f.body.as_slice());
    let body = measure_all(lengths, near, f.body.as_slice(), nest);
    constant_words(STACK_POINTER, STACK_END - nest) + body + 1
}

/// The code of the function numbered n, where it is called, given the lengths of the parts in it.
pub fn callable(
    code: &mut Code,
    targets: &Targets,
    lengths: &[u32],
    sets: &[u32],
    n: usize,
    f: &FlatFunc,
)
    requires nest { nest f.now ≤ 1048576 }
    requires targets { (g : ℕ) → InReach ((aimed targets.now).at g) }
    requires form { IsTrue (list_all (throughout is_encodable) f.now.body) }
    requires ready { Ready (callable_items (aimed targets.now) (forgets_of sets.now) n f.now)
        (sized_all targets.now.near f.now.body (nest f.now)).parts code.old lengths.now }
    ensures code { code.new
        ≡ appended code.old (callable_items (aimed targets.now) (forgets_of sets.now) n f.now) }
    ensures fit { AllFit (callable_items (aimed targets.now) (forgets_of sets.now) n f.now) }
{
    let nest = nest_all(f.body.as_slice());
    let rs = framed(targets.near(), sets, n, f);
    let bytes = 4 * rs.as_slice().len() as u32;
    let down = 0u32.wrapping_sub(bytes);
    let room = 0u32.wrapping_sub(nest);
    with_frame(
        code,
        targets,
        lengths,
        f.body.as_slice(),
        rs.as_slice(),
        nest,
        down,
        room,
        bytes,
    );
}

// The code of a function that is called, by the registers in its frame, the bytes of its buffers,
// and how the stack pointer moves for the frame and for the buffers.
fn with_frame(
    code: &mut Code,
    targets: &Targets,
    lengths: &[u32],
    body: &[Stmt],
    rs: &[u32],
    buffers: u32,
    down: u32,
    room: u32,
    up: u32,
)
    requires registers { All (λ r. r < 32) rs.now }
    requires count { length rs.now ≤ 30 }
    requires targets { (g : ℕ) → InReach ((aimed targets.now).at g) }
    requires form { IsTrue (list_all (throughout is_encodable) body.now) }
    requires ready { Ready (framed_items (aimed targets.now) rs.now body.now buffers down room up)
        (sized_all targets.now.near body.now buffers).parts code.old lengths.now }
    ensures code { code.new ≡ appended code.old
        (framed_items (aimed targets.now) rs.now body.now buffers down room up) }
    ensures fit { AllFit (framed_items (aimed targets.now) rs.now body.now buffers down room up) }
{
    move_stack(code, down);
    save(code, 0, rs);
    move_stack(code, room);
    write_all(code, targets, &mut Left::new(lengths), body, buffers);
    move_stack(code, buffers);
    restore(code, 0, rs);
    move_stack(code, up);
    exit(code);
}

/// The code of a function that nobody calls, given the lengths of the parts in it.
pub fn direct(code: &mut Code, targets: &Targets, lengths: &[u32], f: &FlatFunc)
    requires nest { nest f.now ≤ 1048576 }
    requires targets { (g : ℕ) → InReach ((aimed targets.now).at g) }
    requires form { IsTrue (list_all (throughout is_encodable) f.now.body) }
    requires ready { Ready (direct_items (aimed targets.now) f.now)
        (sized_all targets.now.near f.now.body (nest f.now)).parts code.old lengths.now }
    ensures code { code.new ≡ appended code.old (direct_items (aimed targets.now) f.now) }
    ensures fit { AllFit (direct_items (aimed targets.now) f.now) }
{
    let nest = nest_all(f.body.as_slice());
    ended(code, targets, lengths, f.body.as_slice(), nest);
}

// Code that sets the stack pointer below buffers of so many bytes, and ends after its statements.
fn ended(code: &mut Code, targets: &Targets, lengths: &[u32], body: &[Stmt], buffers: u32)
    requires few { buffers ≤ 1048576 }
    requires targets { (g : ℕ) → InReach ((aimed targets.now).at g) }
    requires form { IsTrue (list_all (throughout is_encodable) body.now) }
    requires ready { Ready (constant_items 2 (stack_end - buffers)
        ++ (all_items (aimed targets.now) body.now buffers ++ Does Ecall ∷ []))
        (sized_all targets.now.near body.now buffers).parts code.old lengths.now }
    ensures code { code.new ≡ appended code.old (constant_items 2 (stack_end - buffers)
        ++ (all_items (aimed targets.now) body.now buffers ++ Does Ecall ∷ [])) }
    ensures fit { AllFit (constant_items 2 (stack_end - buffers)
        ++ (all_items (aimed targets.now) body.now buffers ++ Does Ecall ∷ [])) }
{
    constant(code, STACK_POINTER, STACK_END - buffers);
    write_all(code, targets, &mut Left::new(lengths), body, buffers);
    code.put(Ins::Ecall);
}
