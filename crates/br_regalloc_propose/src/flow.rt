// What the parts of a function read first and surely write, from its first statement to its last.

use crate::name_set::NameSet;
use br_base::NoMemory;
use br_flatimp::{Cond, Operand, Stmt};
use std::alloc::Global;

/// The names that statements may read before they write them, and those that they surely write.
#[derive(Drop)]
struct Flow {
    reads: NameSet,
    writes: NameSet,
}

impl Flow {
    /// That of no statements.
    fn new(alloc: Global, names: u32) -> Result<Flow, NoMemory> {
        let reads = NameSet::new(alloc, names)?;
        let writes = NameSet::new(alloc, names)?;
        Ok(Flow { reads, writes })
    }

    fn read(&mut self, x: u32) {
        if !self.writes.contains(x) {
            self.reads.insert(x);
        }
    }

    fn read_each(&mut self, xs: &[u32]) {
        for x in xs {
            self.read(*x);
        }
    }

    fn read_operand(&mut self, z: Operand) {
        match z {
            Operand::Name(y) => self.read(y),
            Operand::Const(_) => {}
        }
    }

    fn read_test(&mut self, test: Cond) {
        match test {
            Cond::NonZero(y) => self.read(y),
            Cond::Compare(_, y, z) => {
                self.read(y);
                self.read(z);
            }
        }
    }

    fn write(&mut self, x: u32) {
        self.writes.insert(x);
    }

    fn write_each(&mut self, xs: &[u32]) {
        for x in xs {
            self.write(*x);
        }
    }

    /// Puts statements after these that may or may not run.
    fn may_run(&mut self, next: &Flow) {
        self.reads.join_without(&next.reads, &self.writes);
    }

    /// Puts statements after these.
    fn run(&mut self, next: &Flow) {
        self.may_run(next);
        self.writes.join(&next.writes);
    }
}

/// For each loop in statements of a function with so many names what a turn may read that
/// begins after the test: its last part, and then its first. The turn of a loop stands
/// after those of the loops in it, of which those in its last part stand first, and the
/// loops of a list stand in their order.
pub(crate) fn turns_of(alloc: Global, names: u32, body: &[Stmt]) -> Result<Vec<NameSet>, NoMemory> {
    let mut turns = Vec::new(alloc);
    let mut flow = Flow::new(alloc, names)?;
    add_all(alloc, names, body, &mut flow, &mut turns)?;
    Ok(turns)
}

// The flow of statements alone.
#[cycle(adding)]
fn flow_of_all(
    alloc: Global,
    names: u32,
    body: &[Stmt],
    turns: &mut Vec<NameSet>,
) -> Result<Flow, NoMemory> {
    let mut flow = Flow::new(alloc, names)?;
    add_all(alloc, names, body, &mut flow, turns)?;
    Ok(flow)
}

// Puts statements after those of a flow.
#[cycle(adding)]
fn add_all(
    alloc: Global,
    names: u32,
    body: &[Stmt],
    flow: &mut Flow,
    turns: &mut Vec<NameSet>,
) -> Result<(), NoMemory> {
    for s in body {
        add(alloc, names, s, flow, turns)?;
    }
    Ok(())
}

#[cycle(adding)]
fn add(
    alloc: Global,
    names: u32,
    s: &Stmt,
    flow: &mut Flow,
    turns: &mut Vec<NameSet>,
) -> Result<(), NoMemory> {
    match s {
        Stmt::Lit(x, _) => {
            flow.write(*x);
            Ok(())
        }
        Stmt::Copy(x, y) | Stmt::Load(x, _, y, _) | Stmt::Table(x, _, _, y) | Stmt::Read(x, y) => {
            flow.read(*y);
            flow.write(*x);
            Ok(())
        }
        Stmt::Op(x, _, y, z) => {
            flow.read(*y);
            flow.read_operand(*z);
            flow.write(*x);
            Ok(())
        }
        Stmt::Store(_, y, z, _) | Stmt::Write(y, z) => {
            flow.read(*y);
            flow.read(*z);
            Ok(())
        }
        Stmt::Stackalloc(x, _, body) => {
            flow.write(*x);
            add_all(alloc, names, body.as_slice(), flow, turns)
        }
        Stmt::If(test, first, second) => {
            flow.read_test(*test);
            let mut one = flow_of_all(alloc, names, first.as_slice(), turns)?;
            let other = flow_of_all(alloc, names, second.as_slice(), turns)?;
            one.reads.join(&other.reads);
            one.writes.keep_common(&other.writes);
            flow.run(&one);
            Ok(())
        }
        Stmt::Loop(first, test, last) => {
            let mut turn = flow_of_all(alloc, names, last.as_slice(), turns)?;
            let opening = flow_of_all(alloc, names, first.as_slice(), turns)?;
            flow.run(&opening);
            flow.read_test(*test);
            flow.may_run(&turn);
            turn.may_run(&opening);
            turns.push(turn.reads)?;
            Ok(())
        }
        Stmt::Call(xs, _, ys) => {
            flow.read_each(ys.as_slice());
            flow.write_each(xs.as_slice());
            Ok(())
        }
    }
}
