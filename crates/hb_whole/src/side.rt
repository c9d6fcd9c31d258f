//! The links of the doors, the notes that they make, and what responses did.

ghost use Rattle.std.specs.Prelude.{◌≡◌, ◌≤◌, length, OnOk};
ghost use Rattle.hb_world.specs.declared.entry.Entry.TheVariants as e;

use crate::queue::Queue;
use hb_disco::Kind;
use hb_held::{Held, Outcome};
use hb_links::Links;
use hb_node::Judge;
use hb_relays::Relays;
use std::alloc::Global;

/// What a response of a kind did that was applied.
#[derive(Drop)]
pub struct Applied {
    pub kind: Kind,
    pub did: Outcome,
}

/// The inbound links with their tunnels, the plain links, and the notes that wait to be taken; and the responses that were applied, until
/// they are forgotten.
#[derive(Drop)]
pub(crate) struct Side {
    pub links: Links,
    pub relays: Relays,
    pub notes: Queue,
    pub applied: Vec<Applied>,
}

impl Judge for Side {
    ghost use Rattle.hb_whole.specs.Judged.{Judges};

    ghost judges = { λ before held after. Judges before held after };

    /// A response for which memory lacks isn't kept: it is only shown.
    fn applied(&mut self, held: &Held, kind: Kind, did: Outcome) {
        self.links.applied(held, &mut self.notes);
        self.relays.applied(held, &mut self.notes);
        let _ = self.applied.push(Applied { kind, did });
    }
}
