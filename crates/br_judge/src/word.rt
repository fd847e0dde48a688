// A read or a write of a word of the chip, event by event.

ghost use Rattle.std.specs.Prelude.{◌≡◌, ◌↔◌, ℕ, suc, List, ◌∷◌, length, drop, slice_index, Option};
ghost use Rattle.br_bytes.specs.declared.run.Event.{Event};
ghost use Rattle.br_judge.specs.Places.{rest_of, with_byte, transferring, transfer};

use crate::exchange::{MOST_BUSY, exchange, is_write};
use crate::place::{Exchange, Moved, Transfer};
use br_bytes::Event;

// The mode of the chip select: 2 selects the chip, and 0 releases it.
const CS: u32 = 0x10024018;

// The last four bytes received, once one more has come.
fn with_byte(value: u32, received: u32) -> u32
    ensures { result ≡ with_byte value received }
{
    value / 256 + received % 256 * 0x1000000
}

// Where a transfer goes on after this byte and the one that was received for it.
fn next_byte(sent: u8, value: u32) -> Transfer
    ensures { (bytes : List ℕ) → length bytes ≡ 7 → (o : Option ℕ) (rest : List Event) →
        transferring (drop (suc sent) bytes) value o rest ↔ transfer bytes result o rest }
{
    if sent < 6 {
        Transfer::Byte(sent + 1, value, Exchange::Put(MOST_BUSY))
    } else {
        Transfer::Release(Some(value))
    }
}

/// An event in a transfer that sends these bytes.
pub(crate) fn transfer(bytes: &[u8; 7], at: Transfer, e: Event) -> Moved<Transfer>
    ensures { (o : Option ℕ) (rest : List Event) →
        transfer bytes.now at o (e ∷ rest) ↔ rest_of (transfer bytes.now) result o rest }
{
    match at {
        Transfer::Select => {
            if is_write(e, CS, 2) {
                Moved::On(Transfer::Byte(0, 0, Exchange::Put(MOST_BUSY)))
            } else {
                Moved::Departs
            }
        }
        Transfer::Byte(sent, value, inner) => match exchange(byte_at(bytes, sent), inner, e) {
            Moved::On(inner) => Moved::On(Transfer::Byte(sent, value, inner)),
            Moved::Over(Some(r)) => Moved::On(next_byte(sent, with_byte(value, r))),
            Moved::Over(None) => Moved::On(Transfer::Release(None)),
            Moved::Departs => Moved::Departs,
        },
        Transfer::Release(outcome) => {
            if is_write(e, CS, 0) {
                Moved::Over(outcome)
            } else {
                Moved::Departs
            }
        }
    }
}

// The byte that is sent after so many.
fn byte_at(bytes: &[u8; 7], sent: u8) -> u8
    ensures { result ≡ slice_index bytes.now sent }
{
    bytes.get(usize::from(sent)).copied().unwrap_or(0)
}
