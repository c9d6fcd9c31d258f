//! An audit of lines that several hold.

use crate::line_audit::LineAudit;
use crate::polled::Polled;
use hb_audit::{Audit, Noted, Reason};
use hb_base::{NoMemory, Note};
use std::alloc::Global;
use std::cell::RefCell;
use std::rc::Rc;

/// A `LineAudit` that several hold: who takes notes, who tells other lines, and who writes what waits. A note's line waits until a
/// flush. What a shared value holds no contract says; each call is one of `LineAudit`'s, whose contract does.
#[derive(Drop)]
pub struct SharedAudit<K: Drop> {
    audit: Rc<RefCell<LineAudit<K>>>,
    /// How often it failed.
    faults: u64,
}

impl<K: Polled + Drop> SharedAudit<K> {
    /// An audit that others may hold too.
    ///
    /// Errors: `NoMemory`, and then the audit is dropped.
    pub fn over(alloc: Global, audit: LineAudit<K>) -> Result<SharedAudit<K>, NoMemory> {
        let audit = Rc::new(alloc, RefCell::new(audit))?;
        Ok(SharedAudit { audit, faults: 0 })
    }

    /// The same audit, for another one to hold.
    ///
    /// Errors: `NoMemory`.
    pub fn share(&self) -> Result<SharedAudit<K>, NoMemory> {
        let audit = self.audit.clone()?;
        Ok(SharedAudit { audit, faults: 0 })
    }

    /// Takes a line of other words, with its newline, which waits until a flush.
    pub fn tell(&self, line: &str) {
        if let Ok(mut audit) = self.audit.try_borrow_mut() {
            let _ = audit.tell(line);
        }
    }

    /// Writes what waits, as far as the sink takes it without a wait.
    pub fn flush(&self) {
        if let Ok(mut audit) = self.audit.try_borrow_mut() {
            audit.flush();
        }
    }

    /// Takes a note, with its reason.
    fn take(&self, n: &Note, reason: Option<Reason<'_>>) -> Noted {
        match self.audit.try_borrow_mut() {
            Ok(mut audit) => audit.take(n, reason),
            Err(_) => Noted::Failed,
        }
    }
}

impl<K: Polled + Drop> Audit for SharedAudit<K> {
    ghost use Rattle.std.specs.Prelude.{None, ⊤};

    ghost notes = { λ a. None };

    ghost faults = { λ a. a.faults };

    ghost answers = { λ a t answer after. ⊤ };

    /// Takes the note's line, and that of its reason, which wait until a flush.
    fn note(&mut self, n: &Note, reason: Option<Reason<'_>>) -> Noted {
        let noted = self.take(n, reason);
        if matches!(noted, Noted::Failed) {
            self.faults = self.faults.saturating_add(1);
        }
        noted
    }

    /// False: it tells no notes.
    fn holds(&self, _place: usize, _n: &Note) -> bool {
        false
    }
}
