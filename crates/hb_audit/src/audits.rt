//! Audits in a row, of which those that fail are dropped.

ghost use Rattle.std.specs.Prelude.{◌≡◌, ◌+◌, ◌↔◌, [], Some, IsTrue, length, map, slice_get};
ghost use Rattle.std.specs.Option.{option_and_then};
ghost use Rattle.hb_audit.specs.Held.{note_at};
ghost use Rattle.hb_audit.specs.HeldBy.{each, held_by, answers_by};
ghost use Rattle.hb_audit.specs.Tells.{TellsOne};
ghost use Rattle.hb_audit.specs.Told.{told_of};

use crate::audit::{Audit, Noted};
use crate::reason::Reason;
use hb_base::Note;
use hb_disco::Kind;
use hb_held::{Held, Outcome};
use std::alloc::Global;

/// Audits to which each note is told, in order: boxes, as `Audits<Box<dyn Audit>>`, or audits of one type.
#[derive(Drop)]
pub struct Audits<A> {
    audits: Vec<A>,
}

impl<A: Audit> Audits<A> {
    /// These audits.
    pub fn over(audits: Vec<A>) -> Audits<A>
        ensures { each result ≡ audits.items }
    {
        Audits { audits }
    }

    /// No audit, which takes no memory.
    pub fn none(alloc: Global) -> Audits<A>
        ensures { each result ≡ [] }
    {
        Audits {
            audits: Vec::new(alloc),
        }
    }

    /// The audits, in order.
    pub fn as_slice(&self) -> &[A]
        ensures { result.now ≡ each self.now }
    {
        self.audits.as_slice()
    }

    /// How many audits there are.
    pub fn len(&self) -> usize
        ensures { result ≡ length (each self.now) }
    {
        self.audits.len()
    }

    /// Whether the audit at place `which` tells its notes and the one at `place` is `n`, both counted from 0. False where there is
    /// no such audit.
    pub fn holds(&self, which: usize, place: usize, n: &Note) -> bool
        ensures { IsTrue result ↔ option_and_then (λ held. note_at held place) (slice_get (held_by A.notes self.now) which) ≡ Some n.now }
    {
        match self.audits.get(which) {
            Some(audit) => audit.holds(place, n),
            None => false,
        }
    }

    /// Tells each audit that time passed, and what is held.
    pub fn ticked(&self, held: &Held) {
        for audit in self.audits.as_slice() {
            audit.ticked(held);
        }
    }

    /// Tells each audit that a response of this kind was applied, and what it did.
    pub fn applied(&self, kind: Kind, did: &Outcome) {
        for audit in self.audits.as_slice() {
            audit.applied(kind, did);
        }
    }

    /// Tells each audit a note, with its reason. One that did not keep it is dropped; the others stay in order. How many were dropped.
    pub fn tell(&mut self, n: &Note, reason: Option<Reason<'_>>) -> usize
        ensures one { TellsOne (answers_by A.notes A.answers) (each self.old) (each self.new) (told_of n.now reason.entry) }
        ensures dropped { length (each self.new) + result ≡ length (each self.old) }
    {
        let mut dropped = 0;
        let mut at = 0;
        while at < self.audits.len() {
            match self.audits[at].note(n, reason) {
                Noted::Kept => at += 1,
                Noted::Failed | Noted::NoMemory => {
                    self.audits.remove(at);
                    dropped += 1;
                }
            }
        }
        dropped
    }
}
