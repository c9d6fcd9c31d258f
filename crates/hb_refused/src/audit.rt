//! Of hb_audit.

ghost use Rattle.std.specs.Prelude.{◌≡◌, ◌+◌, length};
ghost use Rattle.hb_audit.specs.HeldBy.{each, answers_by};
ghost use Rattle.hb_audit.specs.Tells.{TellsOne};
ghost use Rattle.hb_audit.specs.Told.{told_of};

use hb_audit::{Audit, Audits, Reason};
use hb_base::Note;

/// `Audits::tell`.
pub fn tell<A: Audit>(audits: &mut Audits<A>, n: &Note, reason: Option<Reason<'_>>) -> usize
    ensures one { TellsOne (answers_by A.notes A.answers) (each audits.old) (each audits.new) (told_of n.now reason.entry) }
    ensures dropped { length (each audits.new) + result ≡ length (each audits.old) }
{
    audits.tell(n, reason)
}
