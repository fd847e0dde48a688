// Which register or number a name had best have.

use crate::points::{Half, Known, Place, Points, REGISTERS, contains, just};

/// How many registers there are for names: from 3 to 31.
pub(crate) const MOST: u32 = 29;

const FIRST: u32 = 3;

// At which of the registers the search begins: the passing registers, or those after them.
const PASSING: u32 = 7;

const BEYOND: u32 = 15;

// What a register costs before anything is known of it.
const PLAIN: u32 = 1_000_000_000;

// What counts against a register, and for one: a word that is saved in each call that the name
// outlasts, a register that the function does not change yet, a copy that another name would be
// spared, and a copy that this name is spared surely or maybe.
const CHANGED_BY_CALL: u32 = 8;

const NEW: u32 = 3;

const WANTED_BY_OTHER: u32 = 4;

const SAME: u32 = 4;

const MAYBE_SAME: u32 = 1;

/// What stands beside a name at all its points.
#[derive(Clone, Copy)]
struct Beside {
    taken: u32,
    wanted: u32,
    changed: u32,
    weight: u32,
}

impl Points {
    /// Finds for each name the registers that it is copied from or to and may have.
    pub(crate) fn want_each(&mut self) {
        for at in 0..self.names.len() {
            self.want_one(at);
        }
    }

    fn want_one(&mut self, at: usize) {
        if at < self.names.len() {
            let known = self.names[at];
            let copied = self.fixed_others(known);
            if copied != 0 {
                let wanted = copied & !self.beside(known).taken;
                self.names[at] = Known { wanted, ..known };
                self.want(known, wanted);
            }
        }
    }

    /// The cheapest register for a name, where others have theirs already; the name
    /// itself, where no register is free. Of a function that is called each register
    /// that it changes may have to be saved.
    pub(crate) fn choose(&self, x: u32, to: &[u32], is_called: bool) -> u32 {
        let at = x as usize;
        if at >= self.names.len() {
            return x;
        }
        let known = self.names[at];
        let beside = self.beside(known);
        let begin = if beside.weight > 0 { BEYOND } else { PASSING };
        let mut best = x;
        let mut least = u32::MAX;
        for i in 0..MOST {
            let r = FIRST + (begin + i) % MOST;
            if !contains(beside.taken, r) {
                let cost = self.cost(known, beside, r, to, is_called);
                if cost < least {
                    best = r;
                    least = cost;
                }
            }
        }
        best
    }

    /// The lowest of 32 numbers from one on that no name beside a name has, or better that of a
    /// name which it is copied from or to; the greatest word, where all of them are taken.
    pub(crate) fn choose_number(&self, x: u32, to: &[u32], from: u32) -> u32 {
        let at = x as usize;
        if at >= self.names.len() {
            return u32::MAX;
        }
        let known = self.names[at];
        let taken = self.beside(known).taken;
        let mut best = u32::MAX;
        let mut most = 0;
        for i in 0..REGISTERS {
            let number = from.saturating_add(i);
            if !contains(taken, i) {
                let spared = self.spared(known, number, to);
                if best == u32::MAX || spared > most {
                    best = number;
                    most = spared;
                }
            }
        }
        best
    }

    /// Takes a register for a name, or a number counted from the first of the 32.
    pub(crate) fn take(&mut self, x: u32, r: u32) {
        let at = x as usize;
        if at < self.names.len() {
            let known = self.names[at];
            self.changed = self.changed | just(r);
            let mut at = known.place as usize;
            for _place in 0..known.places {
                let place = self.place_at(at);
                let point = place.point as usize;
                if point < self.points.len() {
                    self.points[point].taken = self.points[point].taken | just(r);
                }
                at = place.before as usize;
            }
        }
    }

    /// Forgets what names took.
    pub(crate) fn give_back(&mut self) {
        for point in self.points.as_mut_slice().iter_mut() {
            point.taken = point.fixed;
        }
    }

    // Registers are wanted at each point of a name.
    fn want(&mut self, known: Known, wanted: u32) {
        let mut at = known.place as usize;
        for _place in 0..known.places {
            let place = self.place_at(at);
            let point = place.point as usize;
            if point < self.points.len() {
                self.points[point].wanted = self.points[point].wanted | wanted;
            }
            at = place.before as usize;
        }
    }

    fn beside(&self, known: Known) -> Beside {
        let mut beside = Beside {
            taken: 0,
            wanted: 0,
            changed: 0,
            weight: 0,
        };
        let mut at = known.place as usize;
        for _place in 0..known.places {
            let place = self.place_at(at);
            if let Some(point) = self.points.get(place.point as usize) {
                beside = Beside {
                    taken: beside.taken | point.taken,
                    wanted: beside.wanted | point.wanted,
                    changed: beside.changed | point.changed,
                    weight: beside.weight.saturating_add(point.weight),
                };
            }
            at = place.before as usize;
        }
        beside
    }

    // What a register costs for a name.
    fn cost(&self, known: Known, beside: Beside, r: u32, to: &[u32], is_called: bool) -> u32 {
        let mut cost = PLAIN;
        if contains(beside.changed, r) {
            cost = cost.saturating_add(beside.weight.saturating_mul(CHANGED_BY_CALL));
        }
        if is_called && !contains(self.changed, r) {
            cost = cost.saturating_add(NEW);
        }
        if contains(beside.wanted & !known.wanted, r) {
            cost = cost.saturating_add(WANTED_BY_OTHER);
        }
        cost.saturating_sub(self.spared(known, r, to))
    }

    // What the copies weigh that a name is spared in a register.
    fn spared(&self, known: Known, r: u32, to: &[u32]) -> u32 {
        let mut spared = 0u32;
        let mut at = known.half as usize;
        for _half in 0..known.halves {
            let half = self.half_at(at);
            spared = spared.saturating_add(self.spared_by(half, r, to));
            at = half.before as usize;
        }
        spared
    }

    fn spared_by(&self, half: Half, r: u32, to: &[u32]) -> u32 {
        let other = half.other as usize;
        if other >= to.len() || other >= self.names.len() {
            return 0;
        }
        if to[other] == r {
            return half.weight.saturating_mul(SAME);
        }
        if to[other] >= REGISTERS && contains(self.names[other].wanted, r) {
            return half.weight.saturating_mul(MAYBE_SAME);
        }
        0
    }

    // The registers that a name is copied from or to.
    fn fixed_others(&self, known: Known) -> u32 {
        let mut others = 0;
        let mut at = known.half as usize;
        for _half in 0..known.halves {
            let half = self.half_at(at);
            others = others | just(half.other);
            at = half.before as usize;
        }
        others
    }

    fn place_at(&self, at: usize) -> Place {
        match self.places.get(at) {
            Some(place) => *place,
            None => Place {
                point: u32::MAX,
                before: 0,
            },
        }
    }

    fn half_at(&self, at: usize) -> Half {
        match self.halves.get(at) {
            Some(half) => *half,
            None => Half {
                other: u32::MAX,
                weight: 0,
                before: 0,
            },
        }
    }
}
