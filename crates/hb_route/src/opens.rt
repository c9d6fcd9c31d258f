//! How many connections each endpoint has open.

ghost use Rattle.std.specs.Prelude.{◌≡◌, ◌<◌, OnOk, OnErr};
ghost use Rattle.std.specs.FinMap.{empty};
ghost use Rattle.hb_route.specs.Opens.{open_at, one_more, one_less};

use hb_base::{NoMemory, Text};
use hb_index::ByName;
use std::alloc::Global;
use std::marker::Model;

/// How many connections each endpoint has open, by the names of the endpoints' resources. Contracts see the finite map from the
/// names to the numbers; a name that isn't there has none open.
#[derive(Drop)]
pub struct Opens {
    alloc: Global,
    counts: ByName<u64>,
}

impl Model for Opens {
    ghost use Rattle.std.specs.FinMap.{code};
    ghost use Rattle.std.specs.Coded.{coded_ℕ, coded_list};
    ghost use Rattle.hb_route.specs.Opens.{Counts};

    ghost Value = { Counts };

    ghost coded = { code (coded_list coded_ℕ) coded_ℕ };

    ghost view = { λ o. o.counts };
}

impl Opens {
    /// No endpoint has a connection open. Takes no memory.
    pub fn new(alloc: Global) -> Opens
        ensures { result ≡ empty }
    {
        Opens {
            alloc,
            counts: ByName::new(alloc),
        }
    }

    /// How many connections an endpoint has open.
    pub fn of(&self, name: &Text) -> u64
        ensures { result ≡ open_at self.now name.now }
    {
        match self.counts.get(name) {
            Some(count) => *count,
            None => 0,
        }
    }

    /// One more connection of an endpoint is open.
    ///
    /// Errors: `NoMemory`, also where 2^64 - 1 are open, and then the numbers are unchanged.
    pub fn add(&mut self, name: &Text) -> Result<(), NoMemory>
        ensures ok { OnOk result (self.new ≡ one_more self.old name.now) }
        ensures err { OnErr result (self.new ≡ self.old) }
    {
        let Some(count) = self.of(name).checked_add(1) else {
            return Err(NoMemory);
        };
        self.counts.put(self.alloc, name, count)?;
        Ok(())
    }

    /// One connection fewer of an endpoint is open; of one that has none, none is. Takes no memory.
    pub fn drop_one(&mut self, name: &Text)
        ensures { self.new ≡ one_less self.old name.now }
    {
        let count = self.of(name);
        if count <= 1 {
            self.counts.take(name);
        } else {
            self.counts.set(name, count - 1);
        }
    }
}
