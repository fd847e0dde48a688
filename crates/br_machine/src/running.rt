// Many steps of the machine.

ghost use Rattle.std.specs.Prelude.{◌≡◌, ◌≢◌, ◌↔◌, ◌+◌, ◌≤◌, length};
ghost use Rattle.std.specs.List.{slice_get};
ghost use Rattle.br_machine.specs.Steps.{after_steps, next_step};
ghost use Rattle.br_machine.specs.Run.{at_start, AllGoOn, end_of};

use crate::machine::Machine;
use crate::stepped::{Stepped, Trap};
use crate::trace::Trace;
use br_bytes::Event;

/// How a run ended.
#[derive(Clone, Copy, Debug, PartialEq, Eq)]
pub enum End {
    /// At ECALL: the call has ended.
    Halted,
    /// The device word at this address is to be read, and no answer is left.
    Waiting(u32),
    /// A rule was to be broken at this pc.
    Trapped(Trap, u32),
    /// The limit of steps is reached, and each of them went on.
    Running,
}

// The next answer, of which so many are taken, if one is left.
fn answer_at(answers: &[u32], taken: usize) -> Option<u32>
    ensures { result ≡ slice_get answers.now taken }
{
    answers.get(taken).copied()
}

/// Makes steps until one waits, ends the call or would break a rule, or until `limit` steps were
/// made that were none of these. Devices give the answers in turn, and the events go into the
/// trace, which has room for `limit` more.
pub fn run(m: &mut Machine, answers: &[u32], limit: u32, trace: &mut Trace) -> End
    requires { limit ≤ trace.old.room }
    ensures machine { m.new.state
        ≡ (after_steps limit (at_start m.old.state answers.now trace.old.events)).machine }
    ensures events { trace.new.events
        ≡ (after_steps limit (at_start m.old.state answers.now trace.old.events)).trace }
    ensures room { trace.new.room + length trace.new.events
        ≡ trace.old.room + length trace.old.events }
    ensures running { (result ≡ End.Running)
        ↔ AllGoOn limit (at_start m.old.state answers.now trace.old.events) }
    ensures ended { result ≢ End.Running →
        result ≡ end_of
        (next_step (after_steps limit (at_start m.old.state answers.now trace.old.events))).1 }
{
    let mut taken = 0;
    for _ in 0..limit {
        match m.step(answer_at(answers, taken)) {
            Stepped::Ran => {}
            Stepped::Read(a, v) => {
                taken += 1;
                trace.push(Event::Read(a, v));
            }
            Stepped::Wrote(a, v) => trace.push(Event::Write(a, v)),
            Stepped::Waiting(a) => return End::Waiting(a),
            Stepped::Halted => return End::Halted,
            Stepped::Trapped(trap, pc) => return End::Trapped(trap, pc),
        }
    }
    End::Running
}
