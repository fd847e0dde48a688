// The functions of a program in an order in which each stands after those that it calls.

use br_base::NoMemory;
use br_flatimp::{FlatFunc, Stmt};
use std::alloc::Global;

/// What is known of a function before its callers are known.
#[derive(Clone, Copy)]
struct Called {
    /// How many calls stand in it of functions that are not in the order yet.
    open: u32,
    /// How many calls of it there are, and the number of the last.
    calls: u32,
    last: u32,
}

/// A call: the function in which it stands, and the call before it of the same function.
#[derive(Clone, Copy)]
struct Call {
    caller: u32,
    before: u32,
}

/// The calls of a program, by the functions that are called.
#[derive(Drop)]
pub(crate) struct Calls {
    functions: Vec<Called>,
    calls: Vec<Call>,
}

impl Calls {
    /// Those of a program.
    pub(crate) fn new(alloc: Global, fs: &[FlatFunc]) -> Result<Calls, NoMemory> {
        let none = Called {
            open: 0,
            calls: 0,
            last: 0,
        };
        let functions = vec![in alloc; none; fs.len()]?;
        let calls = Vec::new(alloc);
        let mut found = Calls { functions, calls };
        let mut caller = 0;
        for f in fs {
            found.add_all(caller, f.body.as_slice())?;
            if caller < u32::MAX {
                caller += 1;
            }
        }
        Ok(found)
    }

    /// Whether a function is called.
    pub(crate) fn is_called(&self, n: u32) -> bool {
        match self.functions.get(n as usize) {
            Some(f) => f.calls > 0,
            None => false,
        }
    }

    /// The numbers of the functions, callees first. Of functions that call themselves, which no
    /// program of a source text has, each stands somewhere.
    pub(crate) fn in_order(&mut self, alloc: Global) -> Result<Vec<u32>, NoMemory> {
        let mut order = Vec::new(alloc);
        self.add_open(&mut order, false)?;
        for k in 0..self.functions.len() {
            if k < order.len() {
                let done = order[k];
                self.close(done, &mut order)?;
            }
        }
        self.add_open(&mut order, true)?;
        Ok(order)
    }

    // Adds the functions that wait for others, or those that do not.
    fn add_open(&self, order: &mut Vec<u32>, waits: bool) -> Result<(), NoMemory> {
        let mut n = 0;
        for f in &self.functions {
            if (f.open > 0) == waits {
                order.push(n)?;
            }
            if n < u32::MAX {
                n += 1;
            }
        }
        Ok(())
    }

    // Adds the callers of a function that wait for no other.
    fn close(&mut self, n: u32, order: &mut Vec<u32>) -> Result<(), NoMemory> {
        let (count, last) = self.calls_of(n);
        let mut at = last as usize;
        for _call in 0..count {
            if at < self.calls.len() {
                let call = self.calls[at];
                if self.closes(call.caller) {
                    order.push(call.caller)?;
                }
                at = call.before as usize;
            }
        }
        Ok(())
    }

    fn calls_of(&self, n: u32) -> (u32, u32) {
        match self.functions.get(n as usize) {
            Some(f) => (f.calls, f.last),
            None => (0, 0),
        }
    }

    // Notes that one more callee of a function is done, and answers whether it was the last.
    fn closes(&mut self, n: u32) -> bool {
        let at = n as usize;
        if at < self.functions.len() {
            let f = self.functions[at];
            let open = f.open.saturating_sub(1);
            self.functions[at] = Called { open, ..f };
            return open == 0;
        }
        false
    }

    #[cycle(adding)]
    fn add_all(&mut self, caller: u32, body: &[Stmt]) -> Result<(), NoMemory> {
        for s in body {
            self.add(caller, s)?;
        }
        Ok(())
    }

    #[cycle(adding)]
    fn add(&mut self, caller: u32, s: &Stmt) -> Result<(), NoMemory> {
        match s {
            Stmt::Stackalloc(_, _, body) => self.add_all(caller, body.as_slice()),
            Stmt::If(_, first, second) | Stmt::Loop(first, _, second) => {
                self.add_all(caller, first.as_slice())?;
                self.add_all(caller, second.as_slice())
            }
            Stmt::Call(_, g, _) => self.add_call(caller, *g),
            Stmt::Lit(_, _)
            | Stmt::Copy(_, _)
            | Stmt::Op(_, _, _, _)
            | Stmt::Load(_, _, _, _)
            | Stmt::Store(_, _, _, _)
            | Stmt::Table(_, _, _, _)
            | Stmt::Read(_, _)
            | Stmt::Write(_, _) => Ok(()),
        }
    }

    fn add_call(&mut self, caller: u32, g: u32) -> Result<(), NoMemory> {
        let number = self.calls.len();
        let at = g as usize;
        if at < self.functions.len() && number < u32::MAX as usize {
            let f = self.functions[at];
            self.functions[at] = Called {
                calls: f.calls.saturating_add(1),
                last: number as u32,
                ..f
            };
            self.calls.push(Call {
                caller,
                before: f.last,
            })?;
            self.wait(caller);
        }
        Ok(())
    }

    // Notes that a function waits for one more callee.
    fn wait(&mut self, n: u32) {
        let at = n as usize;
        if at < self.functions.len() {
            let f = self.functions[at];
            self.functions[at] = Called {
                open: f.open.saturating_add(1),
                ..f
            };
        }
    }
}
