//! A boxed audit.

use crate::audit::{Audit, Noted};
use crate::reason::Reason;
use hb_base::Note;
use hb_disco::Kind;
use hb_held::{Held, Outcome};

/// What the audit inside does.
impl Audit for Box<dyn Audit> {
    ghost use Rattle.hb_audit.specs.Boxed.{HoldsThen};

    ghost notes = { λ b. (Audit-box b).notes b.value };

    ghost faults = { λ b. (Audit-box b).faults b.value };

    ghost answers = { λ b t answer after. HoldsThen b ((Audit-box b).answers b.value t answer) after };

    fn note(&mut self, n: &Note, reason: Option<Reason<'_>>) -> Noted {
        (**self).note(n, reason)
    }

    fn ticked(&self, held: &Held) {
        (**self).ticked(held);
    }

    fn applied(&self, kind: Kind, did: &Outcome) {
        (**self).applied(kind, did);
    }

    fn holds(&self, place: usize, n: &Note) -> bool {
        (**self).holds(place, n)
    }
}
