// The events of a run, in order.

ghost use Rattle.std.specs.Prelude.{◌≡◌, ◌++◌, ◌∷◌, [], ◌-◌, ◌<◌, IfOk};

use br_base::NoMemory;
use br_bytes::Event;
use std::alloc::Global;
use std::marker::Model;

/// The events of a run, in order. Contracts see it as its events and its room for more.
#[derive(Drop)]
pub struct Trace {
    events: Vec<Event>,
}

impl Model for Trace {
    ghost use Rattle.std.specs.Prelude.{◌-◌, vec_len, vec_capacity};
    ghost use Rattle.br_machine.specs.Trace.{Recorded};

    ghost Value = { Recorded };

    ghost view = { λ t. record {
      events = t.events.items;
      room = vec_capacity t.events - vec_len t.events;
    } };
}

impl Trace {
    /// A trace with no events and room for `n`.
    pub fn with_room(alloc: Global, n: u32) -> Result<Trace, NoMemory>
        ensures { IfOk result (λ t. t ≡ record { events = []; room = n }) }
    {
        let events = Vec::with_capacity(alloc, n as usize)?;
        Ok(Trace { events })
    }

    /// The events so far.
    pub fn events(&self) -> &[Event]
        ensures { result.now ≡ self.now.events }
    {
        self.events.as_slice()
    }

    /// One more event, which takes no memory.
    pub(crate) fn push(&mut self, event: Event)
        requires { 0 < self.old.room }
        ensures { self.new
            ≡ record { events = self.old.events ++ event ∷ []; room = self.old.room - 1 } }
    {
        self.events.push_reserved(event);
    }
}
