// Which names of a function are needed: those that are read by what stays, and by what writes
// these. What is said here is checked where it is used, so it has no contract.

use br_base::NoMemory;
use br_flatimp::{Cond, FlatFunc, Operand, Stmt};
use std::alloc::Global;

// No next read.
const NONE: usize = usize::MAX;

// A read of a name by a removable statement, and where the next
// one with the same written name stands.
#[derive(Clone, Copy)]
struct Reading {
    name: u32,
    next: usize,
}

#[derive(Drop)]
struct Search {
    // the names that are needed
    bits: Vec<bool>,
    // those of them whose writers were not looked at
    open: Vec<u32>,
    // what the writers of each name read, as lists by their first places
    first: Vec<usize>,
    readings: Vec<Reading>,
}

/// A bit for each name of a function: whether it is needed.
pub(crate) fn needed_names(alloc: Global, f: &FlatFunc) -> Result<Vec<bool>, NoMemory> {
    let mut search = Search {
        bits: Vec::new(alloc),
        open: Vec::new(alloc),
        first: Vec::new(alloc),
        readings: Vec::new(alloc),
    };
    for _ in 0..f.names {
        search.bits.push(false)?;
        search.first.push(NONE)?;
    }
    for x in f.results.as_slice() {
        search.need(*x)?;
    }
    gather_all(&mut search, f.body.as_slice())?;
    // each name is open once
    for _ in 0..f.names {
        match search.open.pop() {
            Some(x) => search.follow(x)?,
            None => break,
        }
    }
    Ok(search.bits)
}

impl Search {
    fn need(&mut self, x: u32) -> Result<(), NoMemory> {
        let at = x as usize;
        if at < self.bits.len() && !self.bits[at] {
            self.bits[at] = true;
            self.open.push(x)?;
        }
        Ok(())
    }

    // A removable statement that writes x reads y.
    fn add_reading(&mut self, x: u32, y: u32) -> Result<(), NoMemory> {
        let at = x as usize;
        if at < self.first.len() {
            let place = self.readings.len();
            self.readings.push(Reading {
                name: y,
                next: self.first[at],
            })?;
            self.first[at] = place;
        }
        Ok(())
    }

    // What the writers of a name read is needed.
    fn follow(&mut self, x: u32) -> Result<(), NoMemory> {
        let mut at = match self.first.get(x as usize) {
            Some(place) => *place,
            None => NONE,
        };
        for _ in 0..self.readings.len() {
            let reading = match self.readings.get(at) {
                Some(reading) => *reading,
                None => break,
            };
            self.need(reading.name)?;
            at = reading.next;
        }
        Ok(())
    }
}

#[cycle(gather)]
fn gather_all(search: &mut Search, body: &[Stmt]) -> Result<(), NoMemory> {
    for s in body {
        gather(search, s)?;
    }
    Ok(())
}

#[cycle(gather)]
fn gather(search: &mut Search, s: &Stmt) -> Result<(), NoMemory> {
    match s {
        Stmt::Lit(_, _) => Ok(()),
        Stmt::Copy(x, y) | Stmt::Load(x, _, y, _) | Stmt::Table(x, _, _, y) => {
            search.add_reading(*x, *y)
        }
        Stmt::Op(x, _, y, z) => {
            search.add_reading(*x, *y)?;
            match z {
                Operand::Name(z) => search.add_reading(*x, *z),
                Operand::Const(_) => Ok(()),
            }
        }
        Stmt::Store(_, y, z, _) | Stmt::Write(y, z) => {
            search.need(*y)?;
            search.need(*z)
        }
        Stmt::Read(_, y) => search.need(*y),
        Stmt::Call(_, _, ys) => {
            for y in ys.as_slice() {
                search.need(*y)?;
            }
            Ok(())
        }
        Stmt::Stackalloc(_, _, body) => gather_all(search, body.as_slice()),
        Stmt::If(test, first, second) | Stmt::Loop(first, test, second) => {
            match test {
                Cond::NonZero(y) => search.need(*y)?,
                Cond::Compare(_, y, z) => {
                    search.need(*y)?;
                    search.need(*z)?;
                }
            }
            gather_all(search, first.as_slice())?;
            gather_all(search, second.as_slice())
        }
    }
}
