// Commands by work that is pending: neither bodies nor calls are done by recursion.

ghost use Rattle.std.specs.Prelude.{◌≡◌, ℕ, List, ◌+◌, ◌^◌, ◌<◌, ◌≤◌, ◌==◌, IfOk, OnOk};
ghost use Rattle.br_syntax.specs.declared.program.Cmd.TheVariants.{While};
ghost use Rattle.br_bytes.specs.Left.{OnlyTakes};
ghost use Rattle.br_source_meaning.specs.Values.{with_local, value, values};
ghost use Rattle.br_source_meaning.specs.Runs.{Callee, Goes, back_in, choose, interact, run};
ghost use Rattle.br_source_meaning.specs.Runs.{run_all, with_buffer, with_defined, with_fuel};
ghost use Rattle.br_source_meaning.specs.Runs.{with_locals};
ghost use Rattle.br_source_meaning.specs.Calls.{run_function};
ghost use Rattle.br_source_meaning.specs.Names.{function_names, name_at, names_at};
ghost use Rattle.br_source_meaning.specs.Numbered.{named_expr, named_exprs, named_command};
ghost use Rattle.br_source_meaning.specs.Numbered.{named_commands, named_function, target_name};
ghost use Rattle.br_source_meaning.specs.Numbered.{HasSourceResults};
ghost use Rattle.br_source_meaning.specs.Running.{own_of, state_of, deep_calls, Leads, LeadsBack};
ghost use Rattle.br_source_meaning.specs.Pending.{resume, after, finish, begins, LeavesWork};
ghost use Rattle.br_source_meaning.specs.Pending.{Resumes, Pauses, Starts, weight, weights};
ghost use Rattle.br_source_meaning.specs.Pending.{frame_weight, weigh, room};
ghost use Rattle.br_source_meaning.specs.declared.pending.Turn.TheVariants as turn;

use crate::functions::Functions;
use crate::numbered::{NumberedCmd, NumberedExpr, Target};
use crate::pending::{Block, Body, Frame, Looping, Turn, Work, lay_down};
use crate::running::{Running, Stop};
use crate::variables::Variables;
use br_base::{Name, OrMemory};
use sqlite_items::Items;
use std::alloc::Global;
use std::mem;

impl<'x, 'a> Running<'x, 'a> {
    // A command as far as it goes at once, and what is left of it. Each form that does more than
    // one thing is a function of its own.
    fn command(
        &mut self,
        alloc: Global,
        c: &'x NumberedCmd<'a>,
    ) -> Result<Work<'x, 'a>, OrMemory<Stop>>
        ensures leads { (names : List (List ℕ)) (call : Callee) → OnlyTakes call
            → LeavesWork result names call self.new
            (run call (named_command names (own_of self.old) c.now) (state_of self.old)) }
        ensures light { IfOk result (λ w. room w < weight c.now) }
        ensures fuel { self.new.fuel ≡ self.old.fuel }
        ensures own { own_of self.new ≡ own_of self.old }
    {
        match c {
            NumberedCmd::Skip => Ok(Work::Done),
            NumberedCmd::Set(k, e) => {
                self.assign(*k, e)?;
                Ok(Work::Done)
            }
            NumberedCmd::Unset(k) => {
                self.variables.unset(*k);
                Ok(Work::Done)
            }
            NumberedCmd::Store(size, a, e) => {
                self.store(*size, a, e)?;
                Ok(Work::Done)
            }
            NumberedCmd::Stackalloc(k, n, body) => {
                let body = body.as_slice();
                self.buffer(*k, *n, body)
            }
            NumberedCmd::If(e, first, second) => {
                let first = first.as_slice();
                let second = second.as_slice();
                self.choice(e, first, second)
            }
            NumberedCmd::While(test, body) => {
                let commands = body.as_slice();
                self.test(Looping { test, commands })
            }
            NumberedCmd::Seq(body) => {
                let commands = body.as_slice();
                Ok(Work::Body(Body { commands }))
            }
            NumberedCmd::Call {
                results,
                callee,
                args,
                ..
            } => {
                let results = results.as_slice();
                self.call(alloc, results, callee, args.as_slice())
            }
            NumberedCmd::Interact {
                results,
                action,
                args,
                ..
            } => {
                self.interact(alloc, results.as_slice(), action, args.as_slice())?;
                Ok(Work::Done)
            }
        }
    }

    // A buffer is in memory, and its body is left.
    fn buffer(
        &mut self,
        k: usize,
        n: u32,
        body: &'x [NumberedCmd<'a>],
    ) -> Result<Work<'x, 'a>, OrMemory<Stop>>
        ensures leads { (names : List (List ℕ)) (call : Callee)
            → LeavesWork result names call self.new
            (with_buffer (with_local (name_at (own_of self.old) k)) n
            (run_all call (named_commands names (own_of self.old) body.now)) (state_of self.old)) }
        ensures light { IfOk result (λ w. room w ≤ 2 + weights body.now) }
        ensures fuel { self.new.fuel ≡ self.old.fuel }
        ensures own { own_of self.new ≡ own_of self.old }
    {
        let held = self.take_buffer(k, n)?;
        let body = Body { commands: body };
        Ok(Work::Buffer(Block { held, body }))
    }

    // One of two bodies is left.
    fn choice(
        &self,
        e: &NumberedExpr,
        first: &'x [NumberedCmd<'a>],
        second: &'x [NumberedCmd<'a>],
    ) -> Result<Work<'x, 'a>, OrMemory<Stop>>
        ensures leads { (names : List (List ℕ)) (call : Callee)
            → LeavesWork result names call self.now
            (with_defined
            (value (state_of self.now).locals self.now.memory (named_expr (own_of self.now) e.now))
            (state_of self.now)
            (λ v. choose (v == 0)
            (run_all call (named_commands names (own_of self.now) second.now) (state_of self.now))
            (run_all call (named_commands names (own_of self.now) first.now)
            (state_of self.now)))) }
        ensures light { IfOk result (λ w. room w ≤ 1 + (weights first.now + weights second.now)) }
    {
        let commands = if self.word(e)? == 0 { second } else { first };
        Ok(Work::Body(Body { commands }))
    }

    // A call is left, with the words of its arguments.
    fn call(
        &self,
        alloc: Global,
        results: &'x [usize],
        callee: &'x Target<'a>,
        args: &[NumberedExpr],
    ) -> Result<Work<'x, 'a>, OrMemory<Stop>>
        ensures leads { (names : List (List ℕ)) (call : Callee)
            → LeavesWork result names call self.now
            (with_defined
            (values (state_of self.now).locals self.now.memory
            (named_exprs (own_of self.now) args.now)) (state_of self.now)
            (λ vs. with_fuel (state_of self.now)
            (λ t. back_in (with_locals (names_at (own_of self.now) results.now))
            (state_of self.now).locals (call (target_name names callee.now) vs t)))) }
        ensures light { IfOk result (λ w. room w < 1) }
    {
        let words = self.words(alloc, args)?;
        Ok(Work::Turn(Turn::Call(results, callee, words)))
    }

    // An action on a device, with the words of its arguments.
    fn interact(
        &mut self,
        alloc: Global,
        results: &[usize],
        action: &Name,
        args: &[NumberedExpr],
    ) -> Result<(), OrMemory<Stop>>
        ensures leads { Leads result self.new
            (with_defined
            (values (state_of self.old).locals self.old.memory
            (named_exprs (own_of self.old) args.now)) (state_of self.old)
            (λ vs. interact (names_at (own_of self.old) results.now) action.now vs
            (state_of self.old))) }
        ensures fuel { self.new.fuel ≡ self.old.fuel }
        ensures own { own_of self.new ≡ own_of self.old }
    {
        let words = self.words(alloc, args)?;
        self.act(results, action, words.as_slice())
    }

    // The test of a loop.
    fn test(&self, turn: Looping<'x, 'a>) -> Result<Work<'x, 'a>, OrMemory<Stop>>
        ensures leads { (names : List (List ℕ)) (call : Callee) → OnlyTakes call
            → LeavesWork result names call self.now
            (run call
            (While (named_expr (own_of self.now) turn.entry.test.now)
            (named_commands names (own_of self.now) turn.entry.commands.now)) (state_of self.now)) }
        ensures light { IfOk result (λ w. room w < 1) }
    {
        if self.word(turn.test)? == 0 {
            Ok(Work::Done)
        } else {
            Ok(Work::Turn(Turn::Loop(turn)))
        }
    }

    // A frame as far as it goes at once, and what is left of it.
    fn resume(
        &mut self,
        alloc: Global,
        pending: &mut Items<Frame<'x, 'a>>,
        frame: Frame<'x, 'a>,
    ) -> Result<Work<'x, 'a>, OrMemory<Stop>>
        ensures leads { (names : List (List ℕ)) (call : Callee) → OnlyTakes call
            → Resumes result names call self.new pending.new pending.old
            (resume names (own_of self.old) call frame.entry (state_of self.old)) }
        ensures light { IfOk result
            (λ w. weigh pending.new + room w < weigh pending.old + frame_weight frame.entry) }
        ensures fuel { self.new.fuel ≡ self.old.fuel }
        ensures own { OnOk result (own_of self.new ≡ after (own_of self.old) frame.entry) }
    {
        match frame {
            Frame::Body(body) => {
                let Some((c, rest)) = body.commands.split_first() else {
                    return Ok(Work::Done);
                };
                pending.push(Frame::Body(Body { commands: rest }))?;
                self.command(alloc, c)
            }
            Frame::Loop(turn) => self.test(turn),
            Frame::Leave(held) => {
                self.memory.clear_range(held.addr, held.size)?;
                Ok(Work::Done)
            }
            Frame::Return { from, to, caller } => {
                let words = self.results(alloc, from)?;
                self.variables = caller;
                self.variables.set_all(to, words.as_slice());
                Ok(Work::Done)
            }
        }
    }

    // Goes on with what is pending until nothing is, or what takes fuel comes next.
    fn until_turn(
        &mut self,
        alloc: Global,
        pending: &mut Items<Frame<'x, 'a>>,
    ) -> Result<Option<Turn<'x, 'a>>, OrMemory<Stop>>
        ensures pauses { (names : List (List ℕ)) (call : Callee) → OnlyTakes call
            → Pauses result names call self.new pending.new
            (finish names (own_of self.old) call pending.old (Goes (state_of self.old))) }
        ensures fuel { self.new.fuel ≡ self.old.fuel }
    {
        while let Some(frame) = pending.pop() {
            let work = self.resume(alloc, pending, frame)?;
            if let Some(turn) = lay_down(pending, work)? {
                return Ok(Some(turn));
            }
        }
        Ok(None)
    }

    // Enters a function by its name, with variables of its own.
    fn enter(
        &mut self,
        alloc: Global,
        functions: &Functions<'x, 'a>,
        pending: &mut Items<Frame<'x, 'a>>,
        to: &'x [usize],
        callee: &'x Target<'a>,
        words: Items<u32>,
    ) -> Result<(), OrMemory<Stop>>
        requires { self.old.fuel < 2 ^ 32 }
        ensures starts { Starts result (function_names functions.now.funcs.now) (own_of self.old)
            (deep_calls functions.now.funcs.now) self.new pending.new pending.old
            (begins (function_names functions.now.funcs.now) (own_of self.old)
            (deep_calls functions.now.funcs.now) (turn.Call to.entry callee.entry words)
            (state_of self.old)) }
        ensures fuel { self.new.fuel ≡ self.old.fuel }
    {
        let Some(f) = functions.callee(callee) else {
            return Err(OrMemory::Fault(Stop::Undefined));
        };
        let variables = Variables::new(alloc, &f.names)?;
        let caller = mem::replace(&mut self.variables, variables);
        self.variables.set_all(f.args.as_slice(), words.as_slice());
        pending.push(Frame::Return {
            from: f.results.as_slice(),
            to,
            caller,
        })?;
        pending.push(Frame::Body(Body {
            commands: f.body.as_slice(),
        }))?;
        Ok(())
    }

    // Begins what took fuel.
    fn begin(
        &mut self,
        alloc: Global,
        functions: &Functions<'x, 'a>,
        pending: &mut Items<Frame<'x, 'a>>,
        turn: Turn<'x, 'a>,
    ) -> Result<(), OrMemory<Stop>>
        requires { self.old.fuel < 2 ^ 32 }
        ensures starts { Starts result (function_names functions.now.funcs.now) (own_of self.old)
            (deep_calls functions.now.funcs.now) self.new pending.new pending.old
            (begins (function_names functions.now.funcs.now) (own_of self.old)
            (deep_calls functions.now.funcs.now) turn.entry (state_of self.old)) }
        ensures fuel { self.new.fuel ≡ self.old.fuel }
    {
        match turn {
            Turn::Loop(turn) => {
                let commands = turn.commands;
                pending.push(Frame::Loop(turn))?;
                pending.push(Frame::Body(Body { commands }))?;
                Ok(())
            }
            Turn::Call(to, callee, words) => self.enter(
                alloc, functions, pending, to, callee, words,
            ),
        }
    }

    // Runs commands in turn.
    fn commands(
        &mut self,
        alloc: Global,
        functions: &Functions<'x, 'a>,
        cs: &'x [NumberedCmd<'a>],
    ) -> Result<(), OrMemory<Stop>>
        ensures { Leads result self.new
            (run_all (deep_calls functions.now.funcs.now)
            (named_commands (function_names functions.now.funcs.now) (own_of self.old) cs.now)
            (state_of self.old)) }
    {
        let mut pending = Items::new(alloc);
        pending.push(Frame::Body(Body { commands: cs }))?;
        while let Some(turn) = self.until_turn(alloc, &mut pending)? {
            self.spend()?;
            self.begin(alloc, functions, &mut pending, turn)?;
        }
        Ok(())
    }

    /// Runs a function with its arguments as its only variables, and reads its results.
    pub(crate) fn function(
        &mut self,
        alloc: Global,
        functions: &Functions<'x, 'a>,
        args: &[u32],
    ) -> Result<Items<u32>, OrMemory<Stop>>
        requires { HasSourceResults functions.now.program.now.entry }
        ensures { LeadsBack result self.new
            (run_function (deep_calls functions.now.funcs.now)
            (named_function (function_names functions.now.funcs.now)
            functions.now.program.now.entry) args.now (state_of self.old)) }
    {
        let f = &functions.program.entry;
        let mut variables = Variables::new(alloc, &f.names)?;
        variables.set_all(f.args.as_slice(), args);
        self.variables = variables;
        self.commands(alloc, functions, f.body.as_slice())?;
        self.named_results(alloc, f.func.results.as_slice())
    }
}
