// The work that a run still has to do.

ghost use Rattle.std.specs.Prelude.{ℕ, List, ◌+◌, ◌≤◌, IfOk};
ghost use Rattle.br_source_meaning.specs.Runs.{State, Callee};
ghost use Rattle.br_source_meaning.specs.Pending.{IsLaidDown, room, weigh};

use crate::held::Held;
use crate::numbered::{NumberedCmd, NumberedExpr, Target};
use crate::variables::Variables;
use br_base::NoMemory;
use sqlite_items::Items;

/// Commands in turn.
#[derive(Drop)]
pub(crate) struct Body<'x, 'a> {
    pub(crate) commands: &'x [NumberedCmd<'a>],
}

/// A loop, by its test and its body.
#[derive(Drop)]
pub(crate) struct Looping<'x, 'a> {
    pub(crate) test: &'x NumberedExpr<'a>,
    pub(crate) commands: &'x [NumberedCmd<'a>],
}

/// The body of a buffer that is in memory.
#[derive(Drop)]
pub(crate) struct Block<'x, 'a> {
    pub(crate) held: Held,
    pub(crate) body: Body<'x, 'a>,
}

/// What is to be done after the command that runs.
#[derive(Drop)]
pub(crate) enum Frame<'x, 'a> {
    /// The rest of a body.
    Body(Body<'x, 'a>),
    /// A loop, from its test on.
    Loop(Looping<'x, 'a>),
    /// The end of a buffer: it leaves memory.
    Leave(Held),
    /// The end of a call: results of the callee, and the caller's variables that they are for.
    Return {
        from: &'x [usize],
        to: &'x [usize],
        caller: Variables<'x, 'a>,
    },
}

/// What takes a unit of fuel before it begins.
#[derive(Drop)]
pub(crate) enum Turn<'x, 'a> {
    /// A turn of a loop: its body, and the loop again.
    Loop(Looping<'x, 'a>),
    /// A call: the variables for its results, the callee, and the words of its arguments.
    Call(&'x [usize], &'x Target<'a>, Items<u32>),
}

/// What is left of a command.
#[derive(Drop)]
pub(crate) enum Work<'x, 'a> {
    /// Nothing.
    Done,
    /// Commands in turn.
    Body(Body<'x, 'a>),
    /// Commands in turn, after which a buffer leaves memory.
    Buffer(Block<'x, 'a>),
    /// What takes fuel.
    Turn(Turn<'x, 'a>),
}

/// Puts work on the work that is pending; what takes fuel is given back.
pub(crate) fn lay_down<'x, 'a>(
    pending: &mut Items<Frame<'x, 'a>>,
    work: Work<'x, 'a>,
) -> Result<Option<Turn<'x, 'a>>, NoMemory>
    ensures same { (names own : List (List ℕ)) (call : Callee) (s : State)
        → IsLaidDown result names own call pending.new pending.old work.entry s }
    ensures light { IfOk result (λ _. weigh pending.new ≤ weigh pending.old + room work.entry) }
{
    match work {
        Work::Done => Ok(None),
        Work::Body(body) => {
            pending.push(Frame::Body(body))?;
            Ok(None)
        }
        Work::Buffer(block) => {
            let Block { held, body } = block;
            pending.push(Frame::Leave(held))?;
            pending.push(Frame::Body(body))?;
            Ok(None)
        }
        Work::Turn(turn) => Ok(Some(turn)),
    }
}
