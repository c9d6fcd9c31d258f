//! An audit that keeps its notes in memory.

ghost use Rattle.std.specs.Prelude.{◌≡◌, ◌≤◌, ◌↔◌, [], Some, IsTrue};
ghost use Rattle.hb_base.specs.Count.{Counts};
ghost use Rattle.hb_audit.specs.Held.{held_after, has_failed, note_at};
ghost use Rattle.hb_audit.specs.MemAudit.{Auditing, answers_so};
ghost use Rattle.hb_audit.specs.Told.{told_of};

use crate::audit::{Audit, Noted};
use crate::reason::Reason;
use crate::same::is_same_note;
use hb_base::{List, Note};
use std::alloc::Global;
use std::marker::Model;

/// An audit that tells its notes and has room for a fixed number of them. One chosen call fails, as does each where no room is
/// left. Contracts see the notes, the room, the number of the call that is to fail, counted from 1, and how many calls came and
/// failed. Both counts stay at `u64::MAX` once they are there.
#[derive(Drop)]
pub struct MemAudit {
    alloc: Global,
    notes: List<Note>,
    room: usize,
    fail: Option<u64>,
    calls: u64,
    faults: u64,
}

impl Model for MemAudit {
    ghost use Rattle.hb_audit.specs.MemAudit.{Auditing};

    ghost Value = { Auditing };

    ghost view = { λ a. record {
      notes = a.notes;
      room = a.room;
      fail = a.fail;
      calls = a.calls;
      faults = a.faults;
    } };
}

impl MemAudit {
    /// An audit without a note, which takes no memory yet.
    pub fn new(alloc: Global, room: usize, fail: Option<u64>) -> MemAudit
        ensures { result ≡ record { notes = []; room = room; fail = fail; calls = 0; faults = 0 } }
    {
        MemAudit {
            alloc,
            notes: List::new(alloc),
            room,
            fail,
            calls: 0,
            faults: 0,
        }
    }

    /// The notes that it holds, in order.
    pub fn notes(&self) -> &[Note]
        ensures { result.now ≡ self.now.notes }
    {
        self.notes.as_slice()
    }
}

impl Audit for MemAudit {
    ghost use Rattle.std.specs.Prelude.{Some};
    ghost use Rattle.hb_audit.specs.MemAudit.{answers_so};

    ghost notes = { λ a. Some a.notes };

    ghost faults = { λ a. a.faults };

    ghost answers = { λ a t answer after. answers_so a t answer after };

    /// Keeps a copy of the note, unless the call is the one that fails or there is no room. Reasons it lets go.
    fn note(&mut self, n: &Note, reason: Option<Reason<'_>>) -> Noted
        ensures own { answers_so self.old (told_of n.now reason.entry) result self.new }
        ensures held { Some self.new.notes ≡ held_after (Some self.old.notes) n.now result }
        ensures later { self.old.faults ≤ self.new.faults }
        ensures counts { Counts self.old.faults self.new.faults (has_failed result) }
    {
        self.calls = self.calls.saturating_add(1);
        if self.fail == Some(self.calls) || self.room <= self.notes.len() {
            self.faults = self.faults.saturating_add(1);
            return Noted::Failed;
        }
        let Ok(note) = n.copy(self.alloc) else {
            return Noted::NoMemory;
        };
        match self.notes.push(note) {
            Ok(()) => Noted::Kept,
            Err(_) => Noted::NoMemory,
        }
    }

    fn holds(&self, place: usize, n: &Note) -> bool
        ensures { IsTrue result ↔ note_at (Some self.now.notes) place ≡ Some n.now }
    {
        match self.notes.get(place) {
            Some(note) => is_same_note(note, n),
            None => false,
        }
    }
}
