//! Who is shown what is held.

use hb_disco::Kind;
use hb_held::{Held, Outcome};

/// Who is shown what is held behind each response that is applied, before the next one is.
pub trait Judge {
    ghost use Rattle.hb_held.specs.Held.{Resources};

    /// What being shown the resources held makes of it.
    ghost judges: { Self → Resources → Self → Type 0 };

    /// A response of this kind was applied, and this is held now. No clause speaks of what the response did: that is for whoever shows how
    /// a run fares.
    fn applied(&mut self, held: &Held, kind: Kind, did: Outcome)
        ensures { judges self.old held.now self.new };
}

/// One who makes nothing of it.
#[derive(Clone, Copy)]
pub struct NoJudge;

impl Judge for NoJudge {
    ghost use Rattle.std.specs.Prelude.{⊤};

    ghost judges = { λ before held after. ⊤ };

    fn applied(&mut self, _held: &Held, _kind: Kind, _did: Outcome) {}
}
