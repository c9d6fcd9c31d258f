//! A list of entries that only proofs see.

ghost use Rattle.std.specs.Prelude.{◌≡◌, [], ◌++◌, List};
ghost use Rattle.std.specs.Borrow.{ftrue};
ghost use Rattle.hb_world.specs.declared.entry.Entry.{Entry};
ghost use Rattle.hb_traced.specs.Call.{entries_of};

use crate::call::Call;
use std::marker::{Model, PhantomData};

/// The entries of all calls so far, in order. It takes no memory, and does nothing when the program runs: only contracts see it.
#[derive(Drop)]
pub(crate) struct Past {
    marker: PhantomData<u8>,
    pub ghost entries: { List Entry },
}

impl Model for Past {
    ghost also_owns = { λ _. ftrue };
}

impl Past {
    /// No call was made.
    pub fn new() -> Past
        ensures { result.entries ≡ [] }
    {
        Past {
            marker: PhantomData,
        }
    }

    /// One more call was made.
    pub fn hear(&mut self, _call: &Call<'_>)
        ensures { self.new.entries ≡ self.old.entries ++ entries_of _call.now self.old.entries }
    {}
}
