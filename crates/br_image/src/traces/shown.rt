// What the lines of a trace text have shown so far.

ghost use Rattle.std.specs.Prelude.{◌≡◌, ◌↔◌, [], IsTrue, OnOk};
ghost use Rattle.br_image.specs.Shown.{AllowsTrace, FitsTraceEnd, Shows, ShowsMore};

use crate::traces::lines::TraceLine;
use br_base::NoMemory;
use br_bytes::Event;
use sqlite_items::Items;
use std::alloc::Global;

/// The events, and where the last range of memory ends.
#[derive(Debug, Drop)]
pub(crate) struct Shown {
    pub(crate) events: Items<Event>,
    mem_end: u32,
}

impl Shown {
    pub(crate) fn nothing(alloc: Global) -> Shown
        ensures { Shows [] result }
    {
        Shown {
            events: Items::new(alloc),
            mem_end: 0,
        }
    }

    /// Whether a range of memory follows the one before it.
    pub(crate) fn allows(&self, line: &TraceLine) -> bool
        ensures { IsTrue result ↔ AllowsTrace self.now line.now }
    {
        match line {
            TraceLine::Mem(range) => self.mem_end <= range.addr,
            _ => true,
        }
    }

    /// Adds what a line shows.
    pub(crate) fn add(&mut self, line: TraceLine) -> Result<(), NoMemory>
        requires { FitsTraceEnd line }
        ensures { OnOk result (ShowsMore line self.old self.new) }
    {
        match line {
            TraceLine::Read(address, value) => self.events.push(Event::Read(address, value))?,
            TraceLine::Write(address, value) => self.events.push(Event::Write(address, value))?,
            TraceLine::Mem(range) => {
                self.mem_end = range.addr + range.bytes.len() as u32;
            }
            _ => {}
        }
        Ok(())
    }
}
