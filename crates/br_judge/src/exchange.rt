// The exchange of a byte with the chip, event by event.

ghost use Rattle.std.specs.Prelude.{◌≡◌, ◌↔◌, ℕ, List, ◌∷◌, Option, IsTrue};
ghost use Rattle.br_bytes.specs.declared.run.Event.{Event};
ghost use Rattle.br_judge.specs.Places.{waiting, exchanging, rest_of};

use crate::place::{Exchange, Moved};
use br_bytes::Event;

// The port for bytes to send.
const TX: u32 = 0x10024048;

// The port for bytes received.
const RX: u32 = 0x1002404c;

/// How many times a port may be busy before it is ready.
pub(crate) const MOST_BUSY: u16 = 999;

// An event where a port may be busy so many times more.
fn wait(port: u32, left: u16, e: Event) -> Moved<u16>
    ensures { (o : Option ℕ) (rest : List Event) →
        waiting port left o (e ∷ rest) ↔ rest_of (waiting port) result o rest }
{
    let Event::Read(a, w) = e else {
        return Moved::Departs;
    };
    if a != port {
        return Moved::Departs;
    }
    if w < 0x80000000 {
        return Moved::Over(Some(w));
    }
    if left == 0 {
        return Moved::Over(None);
    }
    Moved::On(left - 1)
}

/// An event in the exchange of a byte.
pub(crate) fn exchange(byte: u8, at: Exchange, e: Event) -> Moved<Exchange>
    ensures { (o : Option ℕ) (rest : List Event) →
        exchanging byte at o (e ∷ rest) ↔ rest_of (exchanging byte) result o rest }
{
    match at {
        Exchange::Put(left) => match wait(TX, left, e) {
            Moved::On(left) => Moved::On(Exchange::Put(left)),
            Moved::Over(Some(_)) => Moved::On(Exchange::Send),
            Moved::Over(None) => Moved::Over(None),
            Moved::Departs => Moved::Departs,
        },
        Exchange::Send => {
            if is_write(e, TX, u32::from(byte)) {
                Moved::On(Exchange::Get(MOST_BUSY))
            } else {
                Moved::Departs
            }
        }
        Exchange::Get(left) => match wait(RX, left, e) {
            Moved::On(left) => Moved::On(Exchange::Get(left)),
            Moved::Over(Some(w)) => Moved::Over(Some(w % 256)),
            Moved::Over(None) => Moved::Over(None),
            Moved::Departs => Moved::Departs,
        },
    }
}

/// Whether an event is a write of this word to this register.
pub(crate) fn is_write(e: Event, register: u32, value: u32) -> bool
    ensures { IsTrue result ↔ (e ≡ Event.Write register value) }
{
    match e {
        Event::Write(a, v) => a == register && v == value,
        Event::Read(_, _) => false,
    }
}
