//! Names under numbers.

ghost use Rattle.std.specs.Prelude.{◌≡◌, ℕ, OnOk, OnErr, take};
ghost use Rattle.std.specs.FinMap as map;
ghost use Rattle.std.specs.Option.{option_copied};
ghost use Rattle.hb_index.specs.Index.{with_name, without_name, with_all, without_all, is_among};

use crate::by_name::ByName;
use hb_base::{NoMemory, Text};
use std::alloc::Global;
use std::collections::BTreeMap;
use std::marker::Model;

/// Names under numbers: a name may stand under several. Contracts see the finite map from the numbers under which
/// names stand to the sets of these names.
#[derive(Drop)]
pub struct Index {
    items: BTreeMap<u128, ByName<()>>,
}

impl Model for Index {
    ghost use Rattle.std.specs.FinMap.{from_entries};
    ghost use Rattle.hb_index.specs.Index.{Places, places_code};

    ghost Value = { Places };

    ghost coded = { places_code };

    ghost view = { λ m. from_entries m.items.entries };
}

fn is_among(numbers: &[u128], number: u128) -> bool
    ensures { result ≡ is_among numbers.now number }
{
    numbers.iter().any(|other| *other == number)
}

impl Index {
    /// No name stands under any number. Takes no memory.
    pub fn new(alloc: Global) -> Index
        ensures { result ≡ map.empty }
    {
        Index {
            items: BTreeMap::new(alloc),
        }
    }

    /// The names under a number. `None` where there are none.
    pub fn names(&self, number: u128) -> Option<&ByName<()>>
        ensures { option_copied result ≡ map.get self.now number }
    {
        self.items.get(&number)
    }

    /// Puts a name under a number.
    fn add(&mut self, alloc: Global, number: u128, name: &Text) -> Result<(), NoMemory>
        ensures ok { OnOk result (self.new ≡ with_name self.old number name.now) }
        ensures err { OnErr result (self.new ≡ self.old) }
    {
        if let Some(names) = self.items.get_mut(&number) {
            names.insert(alloc, name, ())?;
            return Ok(());
        }
        let mut names = ByName::new(alloc);
        names.insert(alloc, name, ())?;
        self.items.insert(number, names)?;
        Ok(())
    }

    /// Takes a name away from under a number. Takes no memory.
    fn take(&mut self, number: u128, name: &Text)
        ensures { self.new ≡ without_name self.old number name.now }
    {
        let Some(names) = self.items.get_mut(&number) else {
            return;
        };
        names.take(name);
        if names.len() == 0 {
            self.items.remove(&number);
        }
    }

    /// Puts a name under each of these numbers.
    ///
    /// Errors: `NoMemory`, and then it stands under some first of them.
    pub fn add_all(&mut self, alloc: Global, name: &Text, numbers: &[u128]) -> Result<(), NoMemory>
        ensures ok { OnOk result (self.new ≡ with_all self.old name.now numbers.now) }
        ensures err { OnErr result ((n : ℕ) × (self.new ≡ with_all self.old name.now (take n numbers.now))) }
    {
        for number in numbers {
            self.add(alloc, *number, name)?;
        }
        Ok(())
    }

    /// Takes a name away from under each of these numbers but those to be kept. Takes no memory.
    pub fn take_all(&mut self, name: &Text, numbers: &[u128], kept: &[u128])
        ensures { self.new ≡ without_all self.old name.now numbers.now kept.now }
    {
        for number in numbers {
            if !is_among(kept, *number) {
                self.take(*number, name);
            }
        }
    }
}
