// Ends in memory, which fail where they are told to.

ghost use Rattle.std.specs.Prelude.{◌≡◌, ℕ, ◌+◌, ◌-◌, ◌≤◌, ◌<◌, ◌++◌, List, [], length, take};
ghost use Rattle.std.specs.Prelude.{drop, min, IfOk, OnOk, OnErr, IsErr, Contains, ◌↔◌, Some};
ghost use Rattle.std.specs.Io.KnownBytes.{Appends, Consumes, IsAtEnd, Keeps};
ghost use Rattle.br_base.specs.Ends.{Rose, last_count};
ghost use Rattle.br_base.specs.Memory.{next_call, WriteFails};

use crate::failure::{Failed, NoMemory};
use crate::sink::Sink;
use crate::source::Source;
use std::alloc::Global;
use std::marker::Model;

/// A source that gives the bytes of a list. Contracts see it as a `Supply`.
#[derive(Drop)]
pub struct MemSource {
    bytes: Vec<u8>,
    next: usize,
    most: usize,
    failing: Vec<u64>,
    calls: u64,
    faults: u64,
}

impl Model for MemSource {
    ghost use Rattle.std.specs.Prelude.{drop, length, ◌≤◌, ◌<◌};
    ghost use Rattle.br_base.specs.Memory.{Supply};

    ghost Value = { Supply };

    ghost view = { λ s. record {
      left = drop s.next s.bytes.items;
      most = s.most;
      failing = s.failing.items;
      calls = s.calls;
      faults = s.faults;
    } };

    ghost invariant = { λ s. (s.next ≤ length s.bytes.items) × (0 < s.most) };
}

impl MemSource {
    /// A source of these bytes, which moves at most `most` of them at a read. The reads are
    /// numbered from 0, and those whose numbers stand in `failing` fail.
    pub fn new(bytes: Vec<u8>, most: usize, failing: Vec<u64>) -> MemSource
        requires { 0 < most }
        ensures { result ≡ record {
          left = bytes.items;
          most = most;
          failing = failing.items;
          calls = 0;
          faults = 0;
        } }
    {
        MemSource {
            bytes,
            next: 0,
            most,
            failing,
            calls: 0,
            faults: 0,
        }
    }
}

impl Source for MemSource {
    ghost left = { λ s. Some s.left };

    ghost faults = { λ s. s.faults };

    fn read(&mut self, buf: &mut [u8]) -> Result<usize, Failed>
        ensures fails { IsErr result ↔ Contains self.old.failing self.old.calls }
        ensures moved { IfOk result
            (λ n. n ≡ min self.old.most (min (length buf.old) (length self.old.left))) }
        ensures given { IfOk result (λ n. buf.new ≡ take n self.old.left ++ drop n buf.old) }
        ensures ok { IfOk result (λ n. self.new
            ≡ record self.old { left = drop n self.old.left; calls = next_call self.old.calls }) }
        ensures err { OnErr result (self.new ≡ record self.old {
          calls = next_call self.old.calls;
          faults = min (self.old.faults + 1) last_count;
        }) }
        ensures unwritten { OnErr result (buf.new ≡ buf.old) }

        ensures end { IfOk result (λ n. n ≡ 0 → 0 < length buf.new → self.new.left ≡ []) }
        ensures sound { OnOk result (self.new.faults ≡ self.old.faults) }
        ensures count { self.old.faults ≤ self.new.faults }
        ensures last { self.new.faults ≤ last_count }
    {
        let call = self.calls;
        self.calls = call.saturating_add(1);
        if self.failing.contains(&call) {
            self.faults = self.faults.saturating_add(1);
            return Err(Failed);
        }
        let n = self.most.min(buf.len()).min(self.bytes.len() - self.next);
        buf[..n].copy_from_slice(&self.bytes[self.next..self.next + n]);
        self.next += n;
        Ok(n)
    }
}

/// A sink that keeps bytes in room that it takes when it is made, so that no write takes memory.
/// Contracts see it as a `Store`.
#[derive(Drop)]
pub struct MemSink {
    held: Vec<u8>,
    room: usize,
    most: usize,
    failing: Vec<u64>,
    calls: u64,
    faults: u64,
}

impl Model for MemSink {
    ghost use Rattle.std.specs.Prelude.{length, ◌≤◌, ◌<◌};
    ghost use Rattle.std.specs.Vec.{vec_capacity};
    ghost use Rattle.br_base.specs.Memory.{Store};

    ghost Value = { Store };

    ghost view = { λ s. record {
      held = s.held.items;
      room = s.room;
      most = s.most;
      failing = s.failing.items;
      calls = s.calls;
      faults = s.faults;
    } };

    ghost invariant = { λ s. (length s.held.items ≤ s.room) × (s.room ≤ vec_capacity s.held)
        × (0 < s.most) };
}

impl MemSink {
    /// An empty sink with room for `room` bytes, which moves at most `most` of them at a write.
    /// The writes are numbered from 0, and those whose numbers stand in `failing` fail, as does a
    /// write of some bytes once the room is used up.
    pub fn new(
        alloc: Global,
        room: usize,
        most: usize,
        failing: Vec<u64>,
    ) -> Result<MemSink, NoMemory>
        requires { 0 < most }
        ensures { IfOk result (λ s. s ≡ record {
          held = [];
          room = room;
          most = most;
          failing = failing.items;
          calls = 0;
          faults = 0;
        }) }
    {
        Ok(MemSink {
            held: Vec::with_capacity(alloc, room)?,
            room,
            most,
            failing,
            calls: 0,
            faults: 0,
        })
    }

    /// The bytes that it holds.
    pub fn held(&self) -> &[u8]
        ensures { result.now ≡ self.now.held }
    {
        &self.held
    }
}

impl Sink for MemSink {
    ghost held = { λ s. Some s.held };

    ghost faults = { λ s. s.faults };

    fn write(&mut self, piece: &[u8]) -> Result<usize, Failed>
        ensures fails { IsErr result ↔ WriteFails self.old (length piece.now) }
        ensures moved { IfOk result (λ n. n
            ≡ min self.old.most (min (length piece.now) (self.old.room - length self.old.held))) }
        ensures ok { IfOk result (λ n. self.new ≡ record self.old {
          held = self.old.held
              ++ take n piece.now;
          calls = next_call self.old.calls;
        }) }
        ensures err { OnErr result (self.new ≡ record self.old {
          calls = next_call self.old.calls;
          faults = min (self.old.faults + 1) last_count;
        }) }

        ensures some { IfOk result (λ n. 0 < length piece.now → 0 < n) }
        ensures sound { OnOk result (self.new.faults ≡ self.old.faults) }
        ensures count { self.old.faults ≤ self.new.faults }
        ensures last { self.new.faults ≤ last_count }
    {
        let call = self.calls;
        self.calls = call.saturating_add(1);
        let is_full = !piece.is_empty() && self.room <= self.held.len();
        if is_full || self.failing.contains(&call) {
            self.faults = self.faults.saturating_add(1);
            return Err(Failed);
        }
        let n = self.most.min(piece.len()).min(self.room - self.held.len());
        match self.held.extend_from_slice(&piece[..n]) {
            Ok(()) => Ok(n),
            Err(_) => unreachable!(),
        }
    }
}
