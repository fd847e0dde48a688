// How much the literals of a function are worth in names of their own. Nothing is proved of it but
// that it is safe and ends: which literals a function holds is a choice.

ghost use Rattle.std.specs.Prelude.{◌≤◌};

use br_base::NoMemory;
use br_flatimp::Stmt;
use indexmap::IndexMap;
use std::alloc::Global;

/// How much a turn of a loop weighs beside what stands before it.
const TURNS: u64 = 8;

/// The literals that statements set temporaries to, each with the words of code that it takes in
/// all, a word in a loop as often as turns are expected.
#[derive(Drop)]
pub(crate) struct Uses {
    pub(crate) weights: IndexMap<u32, u64>,
    first_temporary: u32,
    // Whether each loop has calls, in the order of the text.
    calls: Vec<bool>,
    // How many loops are counted.
    counted: usize,
}

// Where statements stand.
#[derive(Clone, Copy)]
struct Place {
    // How often they run.
    weight: u64,
    // Whether what they set may be held: over a call a name costs as much as it saves.
    counts: bool,
}

/// The literals of a function that needs temporaries from a number on.
pub(crate) fn uses_of(
    alloc: Global,
    first_temporary: u32,
    body: &[Stmt],
) -> Result<Uses, NoMemory> {
    let mut calls = Vec::new(alloc);
    let any = note_calls(body, &mut calls)?;
    let mut uses = Uses {
        weights: IndexMap::new(alloc),
        first_temporary,
        calls,
        counted: 0,
    };
    uses.count(
        body,
        Place {
            weight: 1,
            counts: !any,
        },
    )?;
    Ok(uses)
}

// Whether statements have calls, which is noted of each loop in them.
#[cycle(calls)]
fn note_calls(body: &[Stmt], calls: &mut Vec<bool>) -> Result<bool, NoMemory> {
    let mut any = false;
    for s in body {
        any = note_calls_in(s, calls)? || any;
    }
    Ok(any)
}

#[cycle(calls)]
fn note_calls_in(s: &Stmt, calls: &mut Vec<bool>) -> Result<bool, NoMemory> {
    match s {
        Stmt::Call(_, _, _) => Ok(true),
        Stmt::Stackalloc(_, _, body) => note_calls(body.as_slice(), calls),
        Stmt::If(_, first, second) => {
            let one = note_calls(first.as_slice(), calls)?;
            let two = note_calls(second.as_slice(), calls)?;
            Ok(one || two)
        }
        Stmt::Loop(first, _, second) => {
            let number = calls.len();
            calls.push(false)?;
            let one = note_calls(first.as_slice(), calls)?;
            let two = note_calls(second.as_slice(), calls)?;
            if let Some(it) = calls.get_mut(number) {
                *it = one || two;
            }
            Ok(one || two)
        }
        Stmt::Lit(_, _) | Stmt::Copy(_, _) | Stmt::Op(_, _, _, _) | Stmt::Load(_, _, _, _) => Ok(
            false,
        ),
        Stmt::Store(_, _, _, _) | Stmt::Table(_, _, _, _) => Ok(false),
        Stmt::Read(_, _) | Stmt::Write(_, _) => Ok(false),
    }
}

impl Uses {
    /// Counts a literal as one that takes nothing.
    pub(crate) fn forget(&mut self, n: u32) {
        if let Some(weight) = self.weights.get_mut(&n) {
            *weight = 0;
        }
    }

    #[cycle(count)]
    fn count(&mut self, body: &[Stmt], at: Place) -> Result<(), NoMemory> {
        for s in body {
            self.count_in(s, at)?;
        }
        Ok(())
    }

    #[cycle(count)]
    fn count_in(&mut self, s: &Stmt, at: Place) -> Result<(), NoMemory> {
        match s {
            Stmt::Lit(x, n) => self.add(*x, *n, at),
            Stmt::Stackalloc(_, _, body) => self.count(body.as_slice(), at),
            Stmt::If(_, first, second) => {
                self.count(first.as_slice(), at)?;
                self.count(second.as_slice(), at)
            }
            Stmt::Loop(first, _, second) => {
                let calls = self.has_calls();
                let weight = at.weight.saturating_mul(TURNS);
                let test = Place {
                    weight,
                    counts: true,
                };
                self.count(first.as_slice(), test)?;
                let turn = Place {
                    weight,
                    counts: !calls,
                };
                self.count(second.as_slice(), turn)
            }
            Stmt::Copy(_, _) | Stmt::Op(_, _, _, _) | Stmt::Load(_, _, _, _) => Ok(()),
            Stmt::Store(_, _, _, _) | Stmt::Table(_, _, _, _) | Stmt::Call(_, _, _) => Ok(()),
            Stmt::Read(_, _) | Stmt::Write(_, _) => Ok(()),
        }
    }

    // Whether the next loop has calls.
    fn has_calls(&mut self) -> bool {
        let calls = self.calls.get(self.counted).copied().unwrap_or(true);
        self.counted = self.counted.saturating_add(1);
        calls
    }

    fn add(&mut self, x: u32, n: u32, at: Place) -> Result<(), NoMemory> {
        if !at.counts || x < self.first_temporary {
            return Ok(());
        }
        let weight = at.weight.saturating_mul(words_of(n));
        match self.weights.get_mut(&n) {
            Some(it) => {
                *it = it.saturating_add(weight);
            }
            None => {
                self.weights.insert(n, weight)?;
            }
        }
        Ok(())
    }
}

/// The words of code that set a literal: one where it has no upper or no lower part.
pub(crate) fn words_of(n: u32) -> u64
    ensures { result ≤ 2 }
{
    let signed = n.cast_signed();
    if n % 4096 == 0 || -2048 <= signed && signed <= 2047 {
        1
    } else {
        2
    }
}
