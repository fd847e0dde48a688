// The points in the text of a function, and the names that are live there.

use crate::flow::turns_of;
use crate::name_set::NameSet;
use br_base::NoMemory;
use br_flatimp::{Cond, FlatFunc, Operand, Stmt};
use std::alloc::Global;

/// How many registers there are.
pub(crate) const REGISTERS: u32 = 32;

// The most places that are kept: they take 32 MiB of memory.
const MOST_PLACES: usize = 4_194_304;

// What a name in one more loop weighs more, and the most that one weighs for its loops.
const HEAVIER: u32 = 8;

const HEAVIEST: u32 = 32768;

/// A point in the text of a function.
#[derive(Clone, Copy)]
pub(crate) struct Point {
    /// The registers that are names and live or written there.
    pub(crate) fixed: u32,
    /// The registers of names that are live or written there, as far as they are known.
    pub(crate) taken: u32,
    /// The registers that such names had best have, since their words come from there or go there.
    pub(crate) wanted: u32,
    /// Where a call ends: the registers that it may change, and what the call weighs.
    pub(crate) changed: u32,
    pub(crate) weight: u32,
}

/// What is known of a name.
#[derive(Clone, Copy)]
pub(crate) struct Known {
    /// How often it is read and written; each loop around counts eight times.
    pub(crate) weight: u32,
    /// At how many points it is live or written, and the number of the last of these places.
    pub(crate) places: u32,
    pub(crate) place: u32,
    /// How many copies are made from it and to it, and the number of the last half of a copy.
    pub(crate) halves: u32,
    pub(crate) half: u32,
    /// The registers that it had best have.
    pub(crate) wanted: u32,
}

/// A name at a point, and the place before it of the same name.
#[derive(Clone, Copy)]
pub(crate) struct Place {
    pub(crate) point: u32,
    pub(crate) before: u32,
}

/// A copy as one of its two names sees it: the other, what the copy weighs, and the one before it.
#[derive(Clone, Copy)]
pub(crate) struct Half {
    pub(crate) other: u32,
    pub(crate) weight: u32,
    pub(crate) before: u32,
}

/// The points of a function from the last to the first.
#[derive(Drop)]
pub(crate) struct Points {
    pub(crate) points: Vec<Point>,
    pub(crate) names: Vec<Known>,
    pub(crate) places: Vec<Place>,
    pub(crate) halves: Vec<Half>,
    /// The registers that the function changes, as far as they are known.
    pub(crate) changed: u32,
    /// More names are live at a point than may be, or there are too
    /// many places; then nothing else is known.
    pub(crate) is_full: bool,
    turns: Vec<NameSet>,
    weight: u32,
    fixed: u32,
    most: u32,
}

/// One register.
pub(crate) fn just(r: u32) -> u32 {
    if r < 32 { 1 << r } else { 0 }
}

/// Whether a register is in a set.
pub(crate) fn contains(set: u32, r: u32) -> bool {
    r < 32 && set >> r & 1 == 1
}

impl Points {
    /// Those of a function, where it is known what the calls of each function
    /// change. The names below `fixed`, which is 0 or 32, are registers, and at most
    /// so many names may be live at a point.
    pub(crate) fn new(
        alloc: Global,
        f: &FlatFunc,
        changes: &[u32],
        fixed: u32,
        most: u32,
    ) -> Result<Points, NoMemory> {
        let unknown = Known {
            weight: 0,
            places: 0,
            place: 0,
            halves: 0,
            half: 0,
            wanted: 0,
        };
        let mut points = Points {
            points: Vec::new(alloc),
            names: vec![in alloc; unknown; f.names as usize]?,
            places: Vec::new(alloc),
            halves: Vec::new(alloc),
            changed: 0,
            is_full: false,
            turns: turns_of(alloc, f.names, f.body.as_slice())?,
            weight: 1,
            fixed,
            most,
        };
        let mut live = NameSet::new(alloc, f.names)?;
        points.read(f.results.as_slice(), &mut live);
        points.walk_all(alloc, f.body.as_slice(), changes, &mut live)?;
        points.write(f.args.as_slice(), 0, &mut live)?;
        Ok(points)
    }

    // Statements, with the names that are live after them: they become those that are live before.
    #[cycle(walking)]
    fn walk_all(
        &mut self,
        alloc: Global,
        body: &[Stmt],
        changes: &[u32],
        live: &mut NameSet,
    ) -> Result<(), NoMemory> {
        for s in body.iter().rev() {
            self.walk(alloc, s, changes, live)?;
        }
        Ok(())
    }

    #[cycle(walking)]
    fn walk(
        &mut self,
        alloc: Global,
        s: &Stmt,
        changes: &[u32],
        live: &mut NameSet,
    ) -> Result<(), NoMemory> {
        if self.is_full {
            return Ok(());
        }
        match s {
            Stmt::Lit(x, _) => self.write(&[*x], 0, live),
            Stmt::Copy(x, y) => {
                self.write(&[*x], 0, live)?;
                self.read(&[*y], live);
                self.join(*x, *y)?;
                self.join(*y, *x)
            }
            Stmt::Load(x, _, y, _) | Stmt::Table(x, _, _, y) | Stmt::Read(x, y) => {
                self.write(&[*x], 0, live)?;
                self.read(&[*y], live);
                Ok(())
            }
            Stmt::Op(x, _, y, z) => {
                self.write(&[*x], 0, live)?;
                self.read(&[*y], live);
                self.read_operand(*z, live);
                Ok(())
            }
            Stmt::Store(_, y, z, _) | Stmt::Write(y, z) => {
                self.note(0, live)?;
                self.read(&[*y, *z], live);
                Ok(())
            }
            Stmt::Stackalloc(x, _, body) => {
                self.note(0, live)?;
                self.walk_all(alloc, body.as_slice(), changes, live)?;
                self.write(&[*x], 0, live)
            }
            Stmt::If(test, first, second) => {
                self.note(0, live)?;
                let mut other = live.copy(alloc)?;
                self.walk_all(alloc, second.as_slice(), changes, &mut other)?;
                self.walk_all(alloc, first.as_slice(), changes, live)?;
                live.join(&other);
                self.read_test(*test, live);
                Ok(())
            }
            Stmt::Loop(first, test, last) => {
                self.note(0, live)?;
                self.turn(live);
                let outside = self.weight;
                self.weight = heavier(outside);
                self.read_test(*test, live);
                self.note(0, live)?;
                self.walk_all(alloc, first.as_slice(), changes, live)?;
                let mut end = live.copy(alloc)?;
                self.walk_all(alloc, last.as_slice(), changes, &mut end)?;
                self.weight = outside;
                Ok(())
            }
            Stmt::Call(xs, g, ys) => {
                let changed = change_of(changes, *g);
                self.changed = self.changed | changed;
                self.write(xs.as_slice(), changed, live)?;
                self.read(ys.as_slice(), live);
                Ok(())
            }
        }
    }

    // Adds what a turn of a loop may read.
    fn turn(&mut self, live: &mut NameSet) {
        match self.turns.pop() {
            None => {}
            Some(turn) => live.join(&turn),
        }
    }

    // Names are written, by a call that may change registers too or by another statement.
    fn write(&mut self, xs: &[u32], changed: u32, live: &mut NameSet) -> Result<(), NoMemory> {
        for x in xs {
            live.insert(*x);
            self.weigh(*x);
            self.changed = self.changed | just(*x);
        }
        self.note(changed, live)?;
        for x in xs {
            live.remove(*x);
        }
        Ok(())
    }

    fn read(&mut self, ys: &[u32], live: &mut NameSet) {
        for y in ys {
            live.insert(*y);
            self.weigh(*y);
        }
    }

    fn read_operand(&mut self, z: Operand, live: &mut NameSet) {
        match z {
            Operand::Name(y) => self.read(&[y], live),
            Operand::Const(_) => {}
        }
    }

    fn read_test(&mut self, test: Cond, live: &mut NameSet) {
        match test {
            Cond::NonZero(y) => self.read(&[y], live),
            Cond::Compare(_, y, z) => self.read(&[y, z], live),
        }
    }

    // A name is read or written.
    fn weigh(&mut self, x: u32) {
        let at = x as usize;
        if at < self.names.len() {
            let known = self.names[at];
            self.names[at] = Known {
                weight: known.weight.saturating_add(self.weight),
                ..known
            };
        }
    }

    // A name is copied from or to another.
    fn join(&mut self, x: u32, other: u32) -> Result<(), NoMemory> {
        let number = self.halves.len();
        let at = x as usize;
        if x >= self.fixed && at < self.names.len() && number < u32::MAX as usize {
            let known = self.names[at];
            self.halves.push(Half {
                other,
                weight: self.weight,
                before: known.half,
            })?;
            self.names[at] = Known {
                halves: known.halves.saturating_add(1),
                half: number as u32,
                ..known
            };
        }
        Ok(())
    }

    // A point with the names that are live or written there.
    fn note(&mut self, changed: u32, live: &NameSet) -> Result<(), NoMemory> {
        let number = self.points.len();
        if self.is_full || number >= u32::MAX as usize {
            return Ok(());
        }
        let mut fixed = 0;
        let mut count = 0u32;
        let mut from = 0u32;
        for word in live.words() {
            count = count.saturating_add(word.count_ones());
            if count > self.most || self.places.len() >= MOST_PLACES {
                self.is_full = true;
                return Ok(());
            }
            if from < self.fixed {
                fixed = *word;
            } else if *word != 0 {
                self.place_each(from, *word, number as u32)?;
            }
            from = from.saturating_add(32);
        }
        self.points.push(Point {
            fixed,
            taken: fixed,
            wanted: 0,
            changed,
            weight: if changed == 0 { 0 } else { self.weight },
        })?;
        Ok(())
    }

    // The names of a word of a set at a point.
    fn place_each(&mut self, from: u32, word: u32, point: u32) -> Result<(), NoMemory> {
        let mut rest = word;
        for _bit in 0..REGISTERS {
            if rest == 0 {
                return Ok(());
            }
            self.place(from.saturating_add(rest.trailing_zeros()), point)?;
            rest = rest & rest.wrapping_sub(1);
        }
        Ok(())
    }

    fn place(&mut self, x: u32, point: u32) -> Result<(), NoMemory> {
        let number = self.places.len();
        let at = x as usize;
        if at < self.names.len() && number < u32::MAX as usize {
            let known = self.names[at];
            self.places.push(Place {
                point,
                before: known.place,
            })?;
            self.names[at] = Known {
                places: known.places.saturating_add(1),
                place: number as u32,
                ..known
            };
        }
        Ok(())
    }
}

// What a name in one more loop weighs.
fn heavier(weight: u32) -> u32 {
    if weight < HEAVIEST {
        weight * HEAVIER
    } else {
        weight
    }
}

/// What the calls of a function change.
fn change_of(changes: &[u32], g: u32) -> u32 {
    match changes.get(g as usize) {
        Some(changed) => *changed,
        None => u32::MAX,
    }
}
