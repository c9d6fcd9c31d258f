//! Values under the numbers of streams, each in a cell of its own.

ghost use Rattle.std.specs.Prelude.{◌≡◌, ℕ, ◌+◌, ◌<◌, ◌^◌, None, IsSome, OnOk, OnErr, IfSome, IfNone};
ghost use Rattle.std.specs.Option.{option_copied};
ghost use Rattle.std.specs.Borrow.{sem};
ghost use Rattle.std.specs.FinMap as map;
ghost use Rattle.hb_map.specs.Keyed.{IsFirstFrom};
ghost use Rattle.hb_slots.specs.Lending.{LendsItem};

use hb_base::NoMemory;
use hb_map::ById;
use slab::Slab;
use std::alloc::Global;
use std::marker::Model;

/// Values under numbers, one at most under each. Contracts see the finite map from the numbers to the values. A value
/// keeps its cell until it is removed, so only the index is moved when another one comes or goes.
#[derive(Drop)]
pub struct Slots<T> {
    /// The key of each number's cell.
    index: ById<u32, usize>,
    cells: Slab<T>,
}

impl<T> Model for Slots<T> {
    ghost use Rattle.std.specs.FinMap.{FinMap, code};
    ghost use Rattle.std.specs.Coded.{coded_ℕ};
    ghost use Rattle.std.specs.Ordering.{nat_cmp};
    ghost use Rattle.hb_slots.specs.Joined.{joined, IsIndex};

    ghost Value = { FinMap nat_cmp T };

    ghost coded = { code coded_ℕ T.code };

    ghost view = { λ s. joined s.index s.cells };

    ghost invariant = { λ s. IsIndex s.index s.cells };
}

impl<T> Slots<T> {
    /// None, which takes no memory.
    pub fn new(alloc: Global) -> Slots<T>
        ensures { result ≡ map.empty }
    {
        Slots {
            index: ById::new(alloc),
            cells: Slab::new(alloc),
        }
    }

    /// The value under a number. `None` where none stands there.
    pub fn get(&self, number: u32) -> Option<&T>
        ensures { option_copied result ≡ map.get self.now number }
    {
        match self.index.get(number) {
            Some(key) => self.cells.get(*key),
            None => None,
        }
    }

    /// The value under a number, to be changed. `None` where none stands there.
    pub fn at(&mut self, number: u32) -> Option<&mut T>
        ensures* after { sem 𝓛 (LendsItem T.row self.entry number result) }
        ensures value { IfSome result (λ item. map.get self.old number ≡ Some item.now) }
        ensures none { IfNone result (map.get self.old number ≡ None) }
    {
        match self.index.get(number).copied() {
            Some(key) => self.cells.get_mut(key),
            None => None,
        }
    }

    /// The least number from `number` on that has a value. `None` where there is none.
    pub fn first_from(&self, number: u32) -> Option<u32>
        ensures first { IsFirstFrom self.now number result }
        ensures numbers { (n : ℕ) → IsSome (map.get self.now n) → n < 2 ^ 32 }
    {
        self.index.first_from(number)
    }

    /// The least number behind this one that has a value. `None` where there is none.
    pub fn first_behind(&self, number: u32) -> Option<u32>
        ensures { IsFirstFrom self.now (number + 1) result }
    {
        let index = &self.index;
        match number.checked_add(1) {
            Some(from) => index.first_from(from),
            None => None,
        }
    }
}

impl<T: Drop> Slots<T> {
    /// Puts a value under a number that has none.
    ///
    /// Errors: `NoMemory`, and then nothing changes and the value is dropped.
    pub fn add(&mut self, number: u32, item: T) -> Result<(), NoMemory>
        requires new { map.get self.old number ≡ None }
        ensures ok { OnOk result (self.new ≡ map.insert self.old number item) }
        ensures err { OnErr result (self.new ≡ self.old) }
    {
        self.cells.reserve(1)?;
        self.index.put(number, self.cells.vacant_key())?;
        self.cells.insert_reserved(item);
        Ok(())
    }

    /// Takes the value under a number out. `None` where none stands there.
    pub fn remove(&mut self, number: u32) -> Option<T>
        ensures value { result ≡ map.get self.old number }
        ensures rest { self.new ≡ map.remove self.old number }
    {
        match self.index.remove(number) {
            Some(key) => self.cells.try_remove(key),
            None => None,
        }
    }
}
