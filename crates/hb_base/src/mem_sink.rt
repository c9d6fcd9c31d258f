//! A sink over memory.

ghost use Rattle.std.specs.Prelude.{◌≡◌, ◌<◌, ◌≤◌, [], length, IfOk};
ghost use Rattle.hb_base.specs.Count.{Counts};
ghost use Rattle.hb_base.specs.MemSink.{Writing, put_answer, after_put};
ghost use Rattle.hb_base.specs.Sink.{Puts, put_failed};

use crate::or::NoMemory;
use crate::sink::{Put, Sink};
use std::alloc::Global;
use std::marker::Model;

/// A sink of a fixed room, of which chosen calls fail, as does each put where no room is left. Contracts
/// see what was written, the room, the numbers of the calls that fail, counted from 1, and how many calls
/// came and failed. Both counts stay at `u64::MAX` once they are there.
#[derive(Drop)]
pub struct MemSink {
    bytes: Vec<u8>,
    room: usize,
    fails: Vec<u64>,
    calls: u64,
    faults: u64,
}

impl Model for MemSink {
    ghost use Rattle.std.specs.Prelude.{◌≤◌, vec_len, vec_capacity};
    ghost use Rattle.hb_base.specs.MemSink.{Writing};

    ghost Value = { Writing };

    ghost view = { λ s. record {
      written = s.bytes.items;
      room = s.room;
      fails = s.fails.items;
      calls = s.calls;
      faults = s.faults;
    } };

    ghost invariant = { λ s. (vec_len s.bytes ≤ s.room) × (s.room ≤ vec_capacity s.bytes) };
}

impl MemSink {
    /// An empty sink with room for so many bytes, whose calls of these numbers fail.
    ///
    /// Errors: `NoMemory`.
    pub fn new(alloc: Global, room: usize, fails: &[u64]) -> Result<MemSink, NoMemory>
        ensures { IfOk result (λ s. s ≡ record { written = []; room = room; fails = fails.now; calls = 0; faults = 0 }) }
    {
        let bytes = Vec::with_capacity(alloc, room)?;
        let fails = Vec::from_slice(alloc, fails)?;
        Ok(MemSink {
            bytes,
            room,
            fails,
            calls: 0,
            faults: 0,
        })
    }

    /// What was written.
    pub fn as_slice(&self) -> &[u8]
        ensures { result.now ≡ self.now.written }
    {
        self.bytes.as_slice()
    }
}

impl Sink for MemSink {
    ghost use Rattle.std.specs.Prelude.{Some};

    ghost written = { λ s. Some s.written };

    ghost faults = { λ s. s.faults };

    /// As many bytes as fit, unless the call is one that fails or none fits.
    fn put(&mut self, from: &[u8]) -> Put
        requires { 0 < length from.now }
        ensures bytes { Puts (Some self.old.written) (Some self.new.written) from.now result }
        ensures later { self.old.faults ≤ self.new.faults }
        ensures counts { Counts self.old.faults self.new.faults (put_failed result) }
        ensures answer { result ≡ put_answer self.old (length from.now) }
        ensures after { self.new ≡ after_put self.old from.now result }
    {
        self.calls = self.calls.saturating_add(1);
        let room = self.room - self.bytes.len();
        if self.fails.contains(&self.calls) || room == 0 {
            self.faults = self.faults.saturating_add(1);
            return Put::Failed;
        }
        let n = from.len().min(room);
        match self.bytes.extend_from_slice(&from[..n]) {
            Ok(()) => Put::Took(n),
            Err(_) => unreachable!(),
        }
    }
}
