// The judge.

ghost use Rattle.std.specs.Prelude.{◌≡◌, ◌↔◌, ℕ, List, [], ◌∷◌, ◌++◌, Option, IsTrue};
ghost use Rattle.br_bytes.specs.declared.run.Event.{Event};
ghost use Rattle.br_judge.specs.Good.{BeginsGood, with_light};
ghost use Rattle.br_judge.specs.Places.{Stands, MayFollow, bytes_for, after, reading};
ghost use Rattle.br_judge.specs.Places.{with_word, begins, still_fits, light_after, number};

use crate::exchange::is_write;
use crate::place::{Frame, Moved, Place, Purpose, Transfer};
use crate::word::transfer;
use br_bytes::Event;

// Which pins are outputs.
const EN: u32 = 0x10012008;

// The values of the outputs.
const OUT: u32 = 0x1001200c;

// The light's pin.
const LIGHT: u32 = 0x800000;

// What the chip answers once it is ready.
const CHIP_IS_READY: u32 = 0x87654321;

// How many times more the chip may be asked whether it is ready, after the first.
const MOST_ASKED: u8 = 199;

/// The place in the trace language that the events so far have come to.
#[derive(Clone, Copy)]
pub struct Judge {
    place: Place,
}

impl Judge {
    /// A judge before the first event.
    pub fn new() -> Judge
        ensures { Stands result [] }
    {
        Judge {
            place: Place::Start,
        }
    }

    /// Takes one more event, and says whether some member of the language begins with all events so
    /// far. After a false every later answer is false.
    pub fn take(&mut self, e: Event) -> bool
        ensures stands { (events : List Event) → Stands self.old events →
            Stands self.new (events ++ e ∷ []) }
        ensures exact { (events : List Event) → Stands self.old events →
            IsTrue result ↔ BeginsGood (events ++ e ∷ []) }
    {
        self.place = place_after(self.place, e);
        !self.place.is_outside()
    }
}

// The place after one more event.
fn place_after(at: Place, e: Event) -> Place
    ensures { (rest : List Event) → MayFollow at (e ∷ rest) ↔ MayFollow result rest }
{
    match at {
        Place::Start => after_start(e),
        Place::Pin(v) => {
            if is_write(e, EN, v) {
                Place::In(Purpose::Ask(MOST_ASKED), Transfer::Select)
            } else {
                Place::Outside
            }
        }
        Place::In(purpose, at) => after_event(purpose, at, e),
        Place::Between => after_event(Purpose::Poll, Transfer::Select, e),
        Place::Light(on) => after_look(on, e),
        Place::Set(v) => {
            if is_write(e, OUT, v) {
                Place::Between
            } else {
                Place::Outside
            }
        }
        Place::Over => Place::Outside,
        Place::Outside => Place::Outside,
    }
}

// The first event reads which pins are outputs; the light's pin is to be made one.
fn after_start(e: Event) -> Place
    ensures { (rest : List Event) → MayFollow Place.Start (e ∷ rest) ↔ MayFollow result rest }
{
    let Event::Read(a, v) = e else {
        return Place::Outside;
    };
    if a == EN {
        Place::Pin(v | LIGHT)
    } else {
        Place::Outside
    }
}

// The outputs are read; the light is to be set, and the other outputs stay.
fn after_look(on: bool, e: Event) -> Place
    ensures { (rest : List Event) → MayFollow (Place.Light on) (e ∷ rest) ↔ MayFollow result rest }
{
    let Event::Read(a, v) = e else {
        return Place::Outside;
    };
    if a == OUT {
        Place::Set(with_light(on, v))
    } else {
        Place::Outside
    }
}

// A word with the light's bit made 1 or 0.
fn with_light(on: bool, v: u32) -> u32
    ensures { result ≡ with_light (number on) v }
{
    (v & !LIGHT) | (u32::from(on) * LIGHT)
}

// The place after an event in a transfer.
fn after_event(purpose: Purpose, at: Transfer, e: Event) -> Place
    ensures { (rest : List Event) →
        MayFollow (Place.In purpose at) (e ∷ rest) ↔ MayFollow result rest }
{
    match transfer(&bytes_for(purpose), at, e) {
        Moved::On(at) => Place::In(purpose, at),
        Moved::Over(outcome) => after_transfer(purpose, outcome),
        Moved::Departs => Place::Outside,
    }
}

// What a transfer sends: the command, the address, and the
// word's bytes or four in exchange for them.
fn bytes_for(purpose: Purpose) -> [u8; 7]
    ensures { result ≡ bytes_for purpose }
{
    match purpose {
        Purpose::Ask(_) => [3, 0, 0x64, 0, 0, 0, 0],
        Purpose::Begin => [2, 0, 0x74, 1, 0, 0, 0],
        Purpose::Poll => [3, 0, 0x7c, 0, 0, 0, 0],
        Purpose::Length => [3, 0, 0x40, 0, 0, 0, 0],
        Purpose::Word(_, _) => [3, 0, 0, 0, 0, 0, 0],
    }
}

// The place after a transfer that gave a word, or failed.
fn after_transfer(purpose: Purpose, outcome: Option<u32>) -> Place
    ensures { (rest : List Event) → after purpose outcome rest ↔ MayFollow result rest }
{
    match (purpose, outcome) {
        (Purpose::Ask(left), Some(v)) => after_answer(left, v),
        (Purpose::Ask(_), None) => Place::Over,
        (Purpose::Begin, Some(_)) => Place::Between,
        (Purpose::Begin, None) => Place::Over,
        (Purpose::Poll, Some(v)) => {
            if v == 0 {
                Place::Between
            } else {
                Place::In(Purpose::Length, Transfer::Select)
            }
        }
        (Purpose::Length, Some(l)) => {
            let n = l % 65536;
            before_words(((n + 3) / 4) as u16, begins(n))
        }
        (Purpose::Word(left, frame), Some(w)) => before_words(left, with_word(w, frame)),
        (Purpose::Poll, None) => Place::Between,
        (Purpose::Length, None) => Place::Between,
        (Purpose::Word(_, _), None) => Place::Between,
    }
}

// After the chip's answer, where it may be asked so many times more.
fn after_answer(left: u8, v: u32) -> Place
    ensures { (rest : List Event) →
        after (Purpose.Ask left) (Some v) rest ↔ MayFollow result rest }
{
    if v == CHIP_IS_READY {
        Place::In(Purpose::Begin, Transfer::Select)
    } else if left == 0 {
        Place::Over
    } else {
        Place::In(Purpose::Ask(left - 1), Transfer::Select)
    }
}

// Before so many words of a frame.
fn before_words(left: u16, frame: Frame) -> Place
    ensures { (rest : List Event) → reading left frame rest ↔ MayFollow result rest }
{
    if left > 0 {
        Place::In(Purpose::Word(left - 1, frame), Transfer::Select)
    } else if frame.fits {
        Place::Light(frame.light)
    } else {
        Place::Between
    }
}

// What is known of a frame of n bytes before its first word.
fn begins(n: u32) -> Frame
    ensures { result ≡ begins n }
{
    Frame {
        index: 0,
        fits: 43 <= n && n <= 1520,
        light: false,
    }
}

// What is known of a frame after one more word.
fn with_word(w: u32, frame: Frame) -> Frame
    ensures { result ≡ with_word w frame }
{
    Frame {
        index: if frame.index < 11 {
            frame.index + 1
        } else {
            frame.index
        },
        fits: still_fits(frame.index, w, frame.fits),
        light: light_after(frame.index, w, frame.light),
    }
}

// Bytes 12 and 13 are those of IPv4, and byte 23 is that of UDP.
fn still_fits(index: u16, w: u32, fits: bool) -> bool
    ensures { result ≡ still_fits index w fits }
{
    match index {
        3 => fits && w % 65536 == 8,
        5 => fits && w / 0x1000000 % 256 == 17,
        _ => fits,
    }
}

// The light is bit 0 of byte 42.
fn light_after(index: u16, w: u32, light: bool) -> bool
    ensures { result ≡ light_after index w light }
{
    if index == 10 {
        w / 65536 % 2 == 1
    } else {
        light
    }
}
