// From where to where names are in use, in the order of the text.

use br_base::NoMemory;
use br_flatimp::{Cond, FlatFunc, Operand, Stmt};
use std::alloc::Global;

/// Where a name is in use: from its first place to its last, where a statement reads
/// at one place and writes at the next.
#[derive(Clone, Copy)]
pub(crate) struct Span {
    pub(crate) first: u32,
    pub(crate) last: u32,
    /// The name that is copied into it.
    pub(crate) like: u32,
}

impl Span {
    // That of a name that is not in use.
    fn new() -> Span {
        Span {
            first: u32::MAX,
            last: 0,
            like: u32::MAX,
        }
    }
}

// A place in the text of a function, and whether a loop is around it.
#[derive(Clone, Copy)]
struct Place {
    now: u32,
    is_in_loop: bool,
}

/// Where each name of a function is in use, without a look at whether its word is read later.
pub(crate) fn spans_of(alloc: Global, f: &FlatFunc) -> Result<Vec<Span>, NoMemory> {
    let mut spans = vec![in alloc; Span::new(); f.names as usize]?;
    let mut place = Place {
        now: 0,
        is_in_loop: false,
    };
    read_each(f.args.as_slice(), place, spans.as_mut_slice());
    place.now = 1;
    note_all(f.body.as_slice(), &mut place, spans.as_mut_slice());
    read_each(f.results.as_slice(), place, spans.as_mut_slice());
    Ok(spans)
}

// Goes over statements, and notes where each name is in use.
#[cycle(spans)]
fn note_all(body: &[Stmt], place: &mut Place, spans: &mut [Span]) {
    for s in body {
        note(s, place, spans);
    }
}

#[cycle(spans)]
fn note(s: &Stmt, place: &mut Place, spans: &mut [Span]) {
    match s {
        Stmt::Lit(x, _) => write(*x, place, spans),
        Stmt::Copy(x, y) => {
            read(*y, *place, spans);
            write(*x, place, spans);
            join(*x, *y, spans);
        }
        Stmt::Load(x, _, y, _) | Stmt::Table(x, _, _, y) | Stmt::Read(x, y) => {
            read(*y, *place, spans);
            write(*x, place, spans);
        }
        Stmt::Op(x, _, y, z) => {
            read(*y, *place, spans);
            read_operand(*z, *place, spans);
            write(*x, place, spans);
        }
        Stmt::Store(_, y, z, _) | Stmt::Write(y, z) => {
            read(*y, *place, spans);
            read(*z, *place, spans);
            step(place);
        }
        Stmt::Stackalloc(x, _, body) => {
            write(*x, place, spans);
            note_all(body.as_slice(), place, spans);
        }
        Stmt::If(test, first, second) => {
            read_test(*test, *place, spans);
            step(place);
            note_all(first.as_slice(), place, spans);
            note_all(second.as_slice(), place, spans);
        }
        Stmt::Loop(first, test, last) => {
            let outside = *place;
            step(place);
            place.is_in_loop = true;
            note_all(first.as_slice(), place, spans);
            read_test(*test, *place, spans);
            step(place);
            note_all(last.as_slice(), place, spans);
            place.is_in_loop = outside.is_in_loop;
            if !outside.is_in_loop {
                stretch(outside.now, place.now, spans);
            }
            step(place);
        }
        Stmt::Call(xs, _, ys) => {
            read_each(ys.as_slice(), *place, spans);
            write_each(xs.as_slice(), place, spans);
        }
    }
}

fn step(place: &mut Place) {
    place.now = place.now.wrapping_add(1);
}

// What is in use in a loop is in use in the whole loop.
fn stretch(from: u32, to: u32, spans: &mut [Span]) {
    for s in spans.iter_mut() {
        if s.first <= s.last && s.last >= from {
            if s.first > from {
                s.first = from;
            }
            s.last = to;
        }
    }
}

// Notes that names are read at a place.
fn read_each(xs: &[u32], place: Place, spans: &mut [Span]) {
    for x in xs {
        read(*x, place, spans);
    }
}

fn write_each(xs: &[u32], place: &mut Place, spans: &mut [Span]) {
    step(place);
    for x in xs {
        read(*x, *place, spans);
    }
    step(place);
}

fn read_test(test: Cond, place: Place, spans: &mut [Span]) {
    match test {
        Cond::NonZero(y) => read(y, place, spans),
        Cond::Compare(_, y, z) => {
            read(y, place, spans);
            read(z, place, spans);
        }
    }
}

fn read_operand(z: Operand, place: Place, spans: &mut [Span]) {
    match z {
        Operand::Name(y) => read(y, place, spans),
        Operand::Const(_) => {}
    }
}

fn write(x: u32, place: &mut Place, spans: &mut [Span]) {
    step(place);
    read(x, *place, spans);
    step(place);
}

fn read(x: u32, place: Place, spans: &mut [Span]) {
    let at = x as usize;
    if at < spans.len() {
        let s = spans[at];
        spans[at] = Span {
            first: least(s.first, place.now),
            last: most(s.last, place.now),
            like: s.like,
        };
    }
}

fn join(x: u32, y: u32, spans: &mut [Span]) {
    let at = x as usize;
    if at < spans.len() {
        let s = spans[at];
        spans[at] = Span { like: y, ..s };
    }
}

fn least(a: u32, b: u32) -> u32 {
    if a < b { a } else { b }
}

fn most(a: u32, b: u32) -> u32 {
    if a < b { b } else { a }
}
