//! Lines that wait until a sink takes them.

ghost use Rattle.std.specs.Prelude.{◌≡◌, ◌≢◌, ◌<◌, ◌≤◌, ◌⊎◌, [], true, false, Some, IfOk, length};
ghost use Rattle.std.specs.Io.KnownBytes.{Keeps};
ghost use Rattle.hb_base.specs.Count.{Counts, Rose};
ghost use Rattle.hb_line_audit.specs.Lines.{Logging, lost_line, fits, after_line, handed};

use crate::backlog::{Backlog, portion};
use crate::polled::Polled;
use hb_base::{NoMemory, Put};
use std::alloc::Global;
use std::marker::Model;

/// Lines that wait for a sink. Contracts see the sink, the bytes that wait, how many lines were lost behind them, and whether a put
/// failed, behind which nothing is put. The count stays at `u64::MAX` once it is there.
#[derive(Drop)]
pub(crate) struct Lines<K> {
    sink: K,
    backlog: Backlog,
    lost: u64,
    has_failed: bool,
}

impl<K> Model for Lines<K> {
    ghost use Rattle.hb_line_audit.specs.Lines.{Logging};

    ghost Value = { Logging K };

    ghost view = { λ l. record { sink = l.sink; waits = l.backlog; lost = l.lost; failed = l.has_failed } };
}

impl<K: Polled + Drop> Lines<K> {
    /// No line waits.
    ///
    /// Errors: `NoMemory`, and then the sink is dropped.
    pub fn over(alloc: Global, sink: K) -> Result<Lines<K>, NoMemory>
        ensures { IfOk result (λ lines. lines ≡ record { sink = sink; waits = []; lost = 0; failed = false }) }
    {
        let backlog = Backlog::new(alloc)?;
        Ok(Lines {
            sink,
            backlog,
            lost: 0,
            has_failed: false,
        })
    }

    /// The sink.
    pub fn sink(&self) -> &K
        ensures { result.now ≡ self.now.sink }
    {
        &self.sink
    }

    /// How many lines were lost since the last that found room.
    pub fn lost(&self) -> u64
        ensures { result ≡ self.now.lost }
    {
        self.lost
    }

    /// Whether a put failed.
    pub fn has_failed(&self) -> bool
        ensures { result ≡ self.now.failed }
    {
        self.has_failed
    }

    /// Whether there is room for a line, behind `told`, which tells of those that were lost.
    pub fn has_room(&self, told: &[u8], line: &[u8]) -> bool
        requires { told.now ≡ lost_line self.now.lost }
        ensures { result ≡ fits line.now self.now }
    {
        self.backlog.has_room(told.len() + line.len())
    }

    /// A line waits, behind `told`, which tells of those that were lost; or it is lost, where there is no room for both.
    pub fn add(&mut self, told: &[u8], line: &[u8])
        requires { told.now ≡ lost_line self.old.lost }
        ensures { self.new ≡ after_line line.now self.old }
    {
        if !self.backlog.has_room(told.len() + line.len()) {
            self.lost = self.lost.saturating_add(1);
            return;
        }
        self.backlog.add(told);
        self.backlog.add(line);
        self.lost = 0;
    }

    /// Writes some of what waits, where the sink takes more. Says whether it did.
    fn write_some(&mut self) -> bool
        requires waits { self.old.waits ≢ [] }
        requires well { self.old.failed ≡ false }
        ensures kept { Keeps (handed K.written self.old) (handed K.written self.new) }
        ensures lost { self.new.lost ≡ self.old.lost }
        ensures asks { Rose (K.asked self.old.sink) (K.asked self.new.sink) }
        ensures later { K.asked self.old.sink ≤ K.asked self.new.sink }
        ensures counts { Counts (K.faults self.old.sink) (K.faults self.new.sink) self.new.failed }
        ensures wrote { result ≡ true → (length self.new.waits < length self.old.waits) × (self.new.failed ≡ false) }
        ensures not { result ≡ false → (self.new.failed ≡ true) ⊎ (K.answer self.new.sink ≡ Some false) }
    {
        if !self.sink.takes_more() {
            return false;
        }
        let waits = self.backlog.as_slice();
        let count = portion(waits);
        match self.sink.put(&waits[..count]) {
            Put::Took(count) => {
                self.backlog.remove(count);
                true
            }
            Put::Failed => {
                self.has_failed = true;
                false
            }
        }
    }

    /// Writes what waits, as far as the sink takes it without a wait: whole lines, where one is no longer than 4,096 bytes. Behind a put
    /// that failed nothing is written.
    #[tactic(auto, using(crate::proofs::Handed::keeps_next))]
    pub fn flush(&mut self)
        ensures kept { Keeps (handed K.written self.old) (handed K.written self.new) }
        ensures lost { self.new.lost ≡ self.old.lost }
        ensures rests { self.new.failed ≡ false → (self.new.waits ≡ []) ⊎ (K.answer self.new.sink ≡ Some false) }
        ensures asks { self.old.failed ≡ false → self.old.waits ≢ [] → Rose (K.asked self.old.sink) (K.asked self.new.sink) }
        ensures counts { self.old.failed ≡ false → Counts (K.faults self.old.sink) (K.faults self.new.sink) self.new.failed }
        ensures ended { self.old.failed ≡ true → self.new ≡ self.old }
    {
        if self.has_failed {
            return;
        }
        while !self.backlog.as_slice().is_empty() {
            if !self.write_some() {
                return;
            }
        }
    }
}
