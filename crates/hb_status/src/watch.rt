//! What is counted and seen of a run whose state is told.

use crate::counts::Counts;
use crate::seen::Sight;
use hb_base::{NoMemory, Note};
use hb_disco::Kind;
use hb_held::{Held, Outcome};
use std::alloc::Global;
use std::sync::Arc;

/// What is counted and seen of a run whose state is told, for who hears its notes.
#[derive(Drop)]
pub struct Watch {
    counts: Arc<Counts, Global>,
    sight: Sight,
}

impl Watch {
    /// Nothing was seen yet.
    ///
    /// Errors: `NoMemory`.
    pub(crate) fn new(alloc: Global, counts: &Arc<Counts, Global>) -> Result<Watch, NoMemory> {
        let sight = Sight::new(alloc, Arc::try_clone(counts)?)?;
        let counts = Arc::try_clone(counts)?;
        Ok(Watch { counts, sight })
    }

    /// What is seen, for a world to hold.
    ///
    /// Errors: `NoMemory`.
    pub fn sight(&self) -> Result<Sight, NoMemory> {
        self.sight.share()
    }

    /// A note was made.
    pub fn note(&self, n: &Note) {
        self.counts.note(n);
        self.sight.note(n);
    }

    /// A response of this kind was applied, and did this.
    pub fn applied(&self, kind: Kind, did: &Outcome) {
        self.counts.apply(kind, did);
    }

    /// Time passed, and this is held. Hands the state over where it was asked for; where memory lacks it is asked for again.
    pub fn ticked(&self, held: &Held) {
        if self.counts.is_stale() {
            self.counts.hold(held);
        }
        self.counts.tick(held.synced());
        if self.counts.is_asked()
            && let Ok(state) = self.sight.state(&self.counts)
        {
            self.counts.give_state(state);
        }
    }

    /// No line of a note is written any more.
    pub fn silence(&self) {
        self.counts.silence();
    }
}
