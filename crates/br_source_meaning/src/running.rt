// What commands do to a run.

ghost use Rattle.std.specs.Prelude.{◌≡◌, ℕ, ◌^◌, ◌<◌, List};
ghost use Rattle.br_words.specs.Size.{size_of};
ghost use Rattle.br_bytes.specs.Memory.{put_number};
ghost use Rattle.br_source_meaning.specs.Values.{with_local, value, values};
ghost use Rattle.br_source_meaning.specs.Runs.{State, Run, Goes, with_defined, with_fuel};
ghost use Rattle.br_source_meaning.specs.Runs.{with_buffer, set_to, read_device, write_device};
ghost use Rattle.br_source_meaning.specs.Runs.{interact};
ghost use Rattle.br_source_meaning.specs.Calls.{words_of};
ghost use Rattle.br_source_meaning.specs.Names.{name_at, names_at};
ghost use Rattle.br_source_meaning.specs.Numbered.{named_expr, named_exprs};
ghost use Rattle.br_source_meaning.specs.Running.{own_of, state_of, Leads, Enters, IsDefined};
ghost use Rattle.br_source_meaning.specs.Running.{can_stand};

use crate::held::Held;
use crate::numbered::NumberedExpr;
use crate::values::{value, values};
use crate::variables::Variables;
use br_base::{Name, OrMemory};
use br_bytes::{ByteMap, Choice, Event};
use br_words::{STACK_BASE, STACK_END, Size, device_word};
use sqlite_items::Items;
use std::alloc::Global;

/// How a run ends before its last command is done.
#[derive(Clone, Copy)]
pub(crate) enum Stop {
    /// It reads the device word at this address, and no answer is left.
    Waiting(u32),
    /// It was to begin one more turn or call than its fuel allows.
    OutOfFuel,
    /// It did what the language gives no meaning.
    Undefined,
    /// It has no choice left, or the next is none that it can take.
    NoChoice,
}

/// What a run has at a moment: the variables of the function that runs, the memory, the events so
/// far, the answers and the choices that are left, and the fuel that is left.
#[derive(Drop)]
pub(crate) struct Running<'x, 'a> {
    pub(crate) variables: Variables<'x, 'a>,
    pub(crate) memory: ByteMap,
    pub(crate) trace: Items<Event>,
    pub(crate) answers: &'a [u32],
    pub(crate) choices: &'a [Choice],
    pub(crate) fuel: u32,
}

impl<'x, 'a> Running<'x, 'a> {
    /// The word of an expression; one that has none is undefined.
    pub(crate) fn word(&self, e: &NumberedExpr) -> Result<u32, OrMemory<Stop>>
        ensures { IsDefined result
            (value (state_of self.now).locals self.now.memory
            (named_expr (own_of self.now) e.now)) }
    {
        match value(&self.variables, &self.memory, e) {
            Some(word) => Ok(word),
            None => Err(OrMemory::Fault(Stop::Undefined)),
        }
    }

    /// The words of expressions in turn; one that has none is undefined.
    pub(crate) fn words(
        &self,
        alloc: Global,
        es: &[NumberedExpr],
    ) -> Result<Items<u32>, OrMemory<Stop>>
        ensures { IsDefined result
            (values (state_of self.now).locals self.now.memory
            (named_exprs (own_of self.now) es.now)) }
    {
        match values(alloc, &self.variables, &self.memory, es)? {
            Some(words) => Ok(Items::from_vec(words)),
            None => Err(OrMemory::Fault(Stop::Undefined)),
        }
    }

    /// Takes a unit of fuel.
    pub(crate) fn spend(&mut self) -> Result<(), OrMemory<Stop>>
        ensures leads { Leads result self.new (with_fuel (state_of self.old) Goes) }
        ensures fits { self.new.fuel < 2 ^ 32 }
        ensures own { own_of self.new ≡ own_of self.old }
    {
        if self.fuel == 0 {
            return Err(OrMemory::Fault(Stop::OutOfFuel));
        }
        self.fuel -= 1;
        Ok(())
    }

    /// Sets a variable to the word of an expression.
    pub(crate) fn assign(&mut self, k: usize, e: &NumberedExpr) -> Result<(), OrMemory<Stop>>
        ensures leads { Leads result self.new
            (with_defined
            (value (state_of self.old).locals self.old.memory (named_expr (own_of self.old) e.now))
            (state_of self.old)
            (λ v. Goes (set_to (name_at (own_of self.old) k) v (state_of self.old)))) }
        ensures fuel { self.new.fuel ≡ self.old.fuel }
        ensures own { own_of self.new ≡ own_of self.old }
    {
        let v = self.word(e)?;
        self.variables.set(k, v);
        Ok(())
    }

    /// Stores the low bytes of a word.
    pub(crate) fn store(
        &mut self,
        size: Size,
        a: &NumberedExpr,
        e: &NumberedExpr,
    ) -> Result<(), OrMemory<Stop>>
        ensures leads { Leads result self.new (
            with_defined (value (state_of self.old).locals self.old.memory
            (named_expr (own_of self.old) a.now)) (state_of self.old) (λ a.
            with_defined (value (state_of self.old).locals self.old.memory
            (named_expr (own_of self.old) e.now)) (state_of self.old) (λ v.
            with_defined (put_number self.old.memory a (size_of size) v) (state_of self.old)
            (λ m. Goes (record (state_of self.old) { memory = m }))))) }
        ensures fuel { self.new.fuel ≡ self.old.fuel }
        ensures own { own_of self.new ≡ own_of self.old }
    {
        let a = self.word(a)?;
        let v = self.word(e)?;
        if self.memory.write(a, size, v) {
            Ok(())
        } else {
            Err(OrMemory::Fault(Stop::Undefined))
        }
    }

    // Reads a device word into a variable.
    fn read(&mut self, k: usize, a: u32) -> Result<(), OrMemory<Stop>>
        ensures leads { Leads result self.new
            (read_device (with_local (name_at (own_of self.old) k)) a (state_of self.old)) }
        ensures fuel { self.new.fuel ≡ self.old.fuel }
        ensures own { own_of self.new ≡ own_of self.old }
    {
        if !device_word(a) {
            return Err(OrMemory::Fault(Stop::Undefined));
        }
        let Some((v, rest)) = self.answers.split_first() else {
            return Err(OrMemory::Fault(Stop::Waiting(a)));
        };
        self.answers = rest;
        self.variables.set(k, *v);
        self.trace.push(Event::Read(a, *v))?;
        Ok(())
    }

    // Writes a device word.
    fn write(&mut self, a: u32, v: u32) -> Result<(), OrMemory<Stop>>
        ensures leads { Leads result self.new (write_device a v (state_of self.old)) }
        ensures fuel { self.new.fuel ≡ self.old.fuel }
        ensures own { own_of self.new ≡ own_of self.old }
    {
        if !device_word(a) {
            return Err(OrMemory::Fault(Stop::Undefined));
        }
        self.trace.push(Event::Write(a, v))?;
        Ok(())
    }

    /// An action on a device, with these words.
    pub(crate) fn act(
        &mut self,
        results: &[usize],
        action: &Name,
        words: &[u32],
    ) -> Result<(), OrMemory<Stop>>
        ensures leads { Leads result self.new
            (interact (names_at (own_of self.old) results.now) action.now words.now
            (state_of self.old)) }
        ensures fuel { self.new.fuel ≡ self.old.fuel }
        ensures own { own_of self.new ≡ own_of self.old }
    {
        if action.bytes() == b"MMIOREAD".as_slice() {
            if let ([k], [a]) = (results, words) {
                return self.read(*k, *a);
            }
        } else if action.bytes() == b"MMIOWRITE".as_slice() {
            if let ([], [a, v]) = (results, words) {
                return self.write(*a, *v);
            }
        }
        Err(OrMemory::Fault(Stop::Undefined))
    }

    /// Takes the next choice for a buffer of n bytes: it is in memory then, and its address in the
    /// variable.
    pub(crate) fn take_buffer(&mut self, k: usize, n: u32) -> Result<Held, OrMemory<Stop>>
        ensures enters { (body : State → Run)
            → Enters result self.new body
            (with_buffer (with_local (name_at (own_of self.old) k)) n body (state_of self.old)) }
        ensures fuel { self.new.fuel ≡ self.old.fuel }
        ensures own { own_of self.new ≡ own_of self.old }
    {
        let Some((c, rest)) = self.choices.split_first() else {
            return Err(OrMemory::Fault(Stop::NoChoice));
        };
        if !can_stand(c, n) {
            return Err(OrMemory::Fault(Stop::NoChoice));
        }
        match self.memory.add_range(c.addr, c.bytes.as_slice()) {
            Ok(()) => {}
            Err(OrMemory::Memory) => return Err(OrMemory::Memory),
            Err(OrMemory::Fault(_)) => return Err(OrMemory::Fault(Stop::NoChoice)),
        }
        self.choices = rest;
        self.variables.set(k, c.addr);
        Ok(Held {
            addr: c.addr,
            size: n,
        })
    }

    /// The words of a function's results.
    pub(crate) fn results(&self, alloc: Global, ks: &[usize]) -> Result<Items<u32>, OrMemory<Stop>>
        ensures { IsDefined result
            (words_of (names_at (own_of self.now) ks.now) (state_of self.now).locals) }
    {
        let mut words = Items::new(alloc);
        for k in ks {
            match self.variables.get(*k) {
                Some(word) => words.push(word)?,
                None => return Err(OrMemory::Fault(Stop::Undefined)),
            }
        }
        Ok(words)
    }

    /// The words of variables by their names.
    pub(crate) fn named_results(
        &self,
        alloc: Global,
        xs: &[Name],
    ) -> Result<Items<u32>, OrMemory<Stop>>
        ensures { IsDefined result (words_of xs.now (state_of self.now).locals) }
    {
        let mut words = Items::new(alloc);
        for x in xs {
            match self.variables.named(x) {
                Some(word) => words.push(word)?,
                None => return Err(OrMemory::Fault(Stop::Undefined)),
            }
        }
        Ok(words)
    }
}

// Whether a choice is of n bytes that lie in the stack region at a multiple of 4.
fn can_stand(c: &Choice, n: u32) -> bool
    ensures { result ≡ can_stand n c.now }
{
    let end = c.addr as u64 + n as u64;
    c.addr % 4 == 0
        && c.bytes.len() == n as usize
        && STACK_BASE <= c.addr
        && end <= STACK_END as u64
}
