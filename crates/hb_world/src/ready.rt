//! What a wait found ready.

ghost use Rattle.std.specs.Prelude.{◌≡◌, ◌<◌, ◌≤◌, [], ◌∷◌, ◌++◌, length, IfOk};

use crate::entry::ReadyItem;
use hb_base::NoMemory;
use std::alloc::Global;
use std::marker::Model;

/// At most this many items are ready at once.
pub const MOST_ITEMS: usize = 1024;

/// At most 1,024 items that a wait found ready, in order. Contracts see their list. After `new` no call
/// takes memory.
#[derive(Drop)]
pub struct Ready {
    items: Vec<ReadyItem>,
}

impl Model for Ready {
    ghost use Rattle.std.specs.Prelude.{◌≤◌, List, vec_len, vec_capacity};
    ghost use Rattle.hb_world.specs.declared.entry.ReadyItem.{ReadyItem};

    ghost Value = { List ReadyItem };

    ghost view = { λ r. r.items.items };

    ghost invariant = { λ r. (vec_len r.items ≤ 1024) × (1024 ≤ vec_capacity r.items) };
}

impl Ready {
    /// Nothing is ready.
    ///
    /// Errors: `NoMemory`.
    pub fn new(alloc: Global) -> Result<Ready, NoMemory>
        ensures { IfOk result (λ r. r ≡ []) }
    {
        let items = Vec::with_capacity(alloc, MOST_ITEMS)?;
        Ok(Ready { items })
    }

    /// Removes all items.
    pub fn clear(&mut self)
        ensures { self.new ≡ [] }
    {
        self.items.clear();
    }

    /// Adds an item at the end.
    pub fn push(&mut self, item: ReadyItem)
        requires { length self.old < 1024 }
        ensures { self.new ≡ self.old ++ item ∷ [] }
    {
        match self.items.push(item) {
            Ok(()) => {}
            Err(_) => unreachable!(),
        }
    }

    /// These items in place of what it held.
    pub(crate) fn fill(&mut self, items: &[ReadyItem])
        requires { length items.now ≤ 1024 }
        ensures { self.new ≡ items.now }
    {
        self.clear();
        for item in items {
            self.push(*item);
        }
    }

    /// The items, in order.
    pub fn items(&self) -> &[ReadyItem]
        ensures items { result.now ≡ self.now }
        ensures most { length self.now ≤ 1024 }
    {
        self.items.as_slice()
    }
}
