//! What takes notes.

use crate::reason::Reason;
use hb_base::Note;
use hb_disco::Kind;
use hb_held::{Held, Outcome};

/// What an audit answers to a note.
#[derive(Clone, Copy, Debug)]
pub enum Noted {
    /// The note is kept.
    Kept,
    /// The audit failed; the note is not kept.
    Failed,
    /// There was no memory for the note; it is not kept.
    NoMemory,
}

/// What keeps the notes that it is told, and counts its faults.
pub trait Audit: Drop {
    ghost use Rattle.std.specs.Prelude.{◌≡◌, ◌≤◌, ◌↔◌, ℕ, List, Option, Some, IsTrue};
    ghost use Rattle.hb_base.specs.Count.{Counts};
    ghost use Rattle.hb_base.specs.declared.note.Note.{Note};
    ghost use Rattle.hb_audit.specs.declared.audit.Noted.{Noted};
    ghost use Rattle.hb_audit.specs.Held.{held_after, has_failed, note_at};
    ghost use Rattle.hb_audit.specs.Told.{Told, told_of};

    /// The notes that it holds, in the order in which they came, where it tells them.
    ghost notes: { Self → Option (List Note) };

    /// How often it failed.
    ghost faults: { Self → ℕ };

    /// Which answers it may give to a note with its reason, as it stands, and what it is then.
    ghost answers: { Self → Told → Noted → Self → Type 0 };

    /// Takes a note, and why the peer was denied, where it was.
    fn note(&mut self, n: &Note, reason: Option<Reason<'_>>) -> Noted
        ensures own { answers self.old (told_of n.now reason.entry) result self.new }
        ensures held { notes self.new ≡ held_after (notes self.old) n.now result }
        ensures later { faults self.old ≤ faults self.new }
        ensures counts { Counts (faults self.old) (faults self.new) (has_failed result) };

    /// Time passed, and this is held. No contract speaks of it: it is for whoever shows how a run fares.
    fn ticked(&self, _held: &Held) {}

    /// A response of this kind was applied, and did this. No contract speaks of it either.
    fn applied(&self, _kind: Kind, _did: &Outcome) {}

    /// Whether it tells its notes and the one at this place, counted from 0, is `n`.
    fn holds(&self, place: usize, n: &Note) -> bool
        ensures { IsTrue result ↔ note_at (notes self.now) place ≡ Some n.now };
}
