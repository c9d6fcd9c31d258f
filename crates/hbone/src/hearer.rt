//! What hears the notes of a run, and what its responses did.

use crate::past::Past;
use hb_audit::{Audit, Noted, Reason};
use hb_base::Note;
use hb_disco::Kind;
use hb_held::{Held, Outcome};
use hb_line_audit::{Polled, SharedAudit};
use hb_lines::refused_line;
use hb_status::Watch;
use std::alloc::Global;

/// Counts each note, where the state is told, and writes its line with that of its reason, and behind an end that is far behind its verdict
/// whose tunnel it was, until a note's line can't be taken; then it writes no more. It writes a line for each resource that is refused, too. It never fails.
#[derive(Drop)]
pub(crate) struct Hearer<K: Drop> {
    pub alloc: Global,
    /// What takes the lines of notes.
    pub notes: Option<SharedAudit<K>>,
    /// The tunnels that are open, of those whose lines were written.
    pub past: Past,
    /// What takes the lines of refused resources.
    pub refused: Option<SharedAudit<K>>,
    pub watch: Option<Watch>,
}

impl<K: Polled + Drop> Hearer<K> {
    /// Whether the note's line was taken, where lines are written.
    fn writes(&mut self, n: &Note, reason: Option<Reason<'_>>) -> bool {
        let Some(lines) = &mut self.notes else {
            return true;
        };
        if !matches!(lines.note(n, reason), Noted::Kept) {
            return false;
        }
        if let Some(line) = self.past.note(n) {
            lines.tell(line.as_str());
        }
        true
    }

    /// Writes a line for each refused resource for which there is memory.
    fn tell_refused(&self, kind: Kind, did: &Outcome) {
        let Some(lines) = &self.refused else {
            return;
        };
        for refusal in did.refused.as_slice() {
            if let Ok(line) = refused_line(self.alloc, kind, refusal) {
                lines.tell(line.as_str());
            }
        }
    }
}

impl<K: Polled + Drop> Audit for Hearer<K> {
    ghost use Rattle.std.specs.Prelude.{None, ⊤};

    ghost notes = { λ h. None };

    ghost faults = { λ h. 0 };

    ghost answers = { λ h t answer after. ⊤ };

    fn note(&mut self, n: &Note, reason: Option<Reason<'_>>) -> Noted {
        if let Some(watch) = &self.watch {
            watch.note(n);
        }
        if !self.writes(n, reason) {
            self.notes = None;
            if let Some(watch) = &self.watch {
                watch.silence();
            }
        }
        Noted::Kept
    }

    /// What is told of the state says what is held.
    fn ticked(&self, held: &Held) {
        if let Some(watch) = &self.watch {
            watch.ticked(held);
        }
    }

    fn applied(&self, kind: Kind, did: &Outcome) {
        self.tell_refused(kind, did);
        if let Some(watch) = &self.watch {
            watch.applied(kind, did);
        }
    }

    /// False: it tells no notes.
    fn holds(&self, _place: usize, _n: &Note) -> bool {
        false
    }
}
