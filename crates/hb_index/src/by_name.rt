//! Values under names.

ghost use Rattle.std.specs.Prelude.{◌≡◌, ◌<◌, ◌^◌, IfOk, IfErr, OnOk, OnErr, IsTrue};
ghost use Rattle.std.specs.BTreeMap.{IsOrdered};
ghost use Rattle.std.specs.Cmp.Lexicographic.{slice_cmp};
ghost use Rattle.std.specs.List.Sorted.{IsStrictlySortedBy};
ghost use Rattle.std.specs.Map.{keys_of};
ghost use Rattle.std.specs.Option.{option_copied};
ghost use Rattle.std.specs.Ordering.{nat_cmp};
ghost use Rattle.std.specs.Range.Bound.{bound_map};
ghost use Rattle.std.specs.FinMap as map;
ghost use Rattle.hb_index.specs.Kept.{put_back};
ghost use Rattle.hb_index.specs.Named.{start_behind, IsFirstBehind};

use hb_base::{NoMemory, Text};
use std::alloc::{AllocFailed, Global};
use std::collections::BTreeMap;
use std::collections::btree_map::Iter;
use std::marker::Model;
use std::mem;
use std::ops::Bound;

/// Values under names, one at most under each. Contracts see the finite map from the names to the values.
#[derive(Drop)]
pub struct ByName<T> {
    items: BTreeMap<Text, T>,
}

impl<T> Model for ByName<T> {
    ghost use Rattle.std.specs.FinMap.{from_entries, code};
    ghost use Rattle.std.specs.Coded.{coded_ℕ, coded_list};
    ghost use Rattle.hb_index.specs.Named.{Named};

    ghost Value = { Named T };

    ghost coded = { code (coded_list coded_ℕ) T.code };

    ghost view = { λ m. from_entries m.items.entries };
}

/// Where the names behind this one start, or all names.
fn start_behind(name: Option<&Text>) -> Bound<&Text>
    ensures { bound_map (λ n. n.now) result ≡ start_behind (option_copied name.entry) }
{
    match name {
        Some(name) => Bound::Excluded(name),
        None => Bound::Unbounded,
    }
}

impl<T> ByName<T> {
    /// The empty map, which takes no memory.
    pub fn new(alloc: Global) -> ByName<T>
        ensures { result ≡ map.empty }
    {
        ByName {
            items: BTreeMap::new(alloc),
        }
    }

    /// How many names it holds.
    pub fn len(&self) -> usize
        ensures value { result ≡ map.len self.now }
        ensures small { result < 2 ^ 63 }
    {
        self.items.len()
    }

    /// Whether a value stands under a name.
    pub fn contains(&self, name: &Text) -> bool
        ensures { result ≡ map.contains_key self.now name.now }
    {
        self.items.contains_key(name)
    }

    /// The value under a name. `None` where none stands there.
    pub fn get(&self, name: &Text) -> Option<&T>
        ensures { option_copied result ≡ map.get self.now name.now }
    {
        self.items.get(name)
    }

    /// The first name behind this one, by bytes, or the first of all; `None` where there is none.
    pub fn first_behind(&self, name: Option<&Text>) -> Option<&Text>
        ensures { IsFirstBehind (map.contains_key self.now) (option_copied name.entry) (option_copied result) }
    {
        let mut rest = self.items.range((start_behind(name), Bound::Unbounded));
        match rest.next() {
            Some((first, _)) => Some(first),
            None => None,
        }
    }

    /// The names and their values, by the names' bytes.
    pub fn iter(&self) -> Iter<'_, Text, T>
        ensures rest { result ≡ map.entries self.now }
        ensures ordered { IsStrictlySortedBy (slice_cmp nat_cmp) (keys_of result) }
    {
        self.items.iter()
    }
}

impl<T: Drop> ByName<T> {
    /// The same as `put` by one look-up, for which the name is copied also where a value stands under it; with want of memory the
    /// value comes back.
    pub(crate) fn insert(
        &mut self,
        alloc: Global,
        name: &Text,
        item: T,
    ) -> Result<Option<T>, AllocFailed<T>>
        ensures stood { IfOk result (λ stood. stood ≡ map.get self.old name.now) }
        ensures ok { OnOk result (self.new ≡ map.insert self.old name.now item) }
        ensures back { IfErr result (λ refused. refused.value ≡ item) }
        ensures err { OnErr result (self.new ≡ self.old) }
    {
        let Ok(name) = name.copy(alloc) else {
            return Err(AllocFailed { value: item });
        };
        match self.items.insert(name, item) {
            Ok(stood) => Ok(stood),
            Err(refused) => Err(AllocFailed {
                value: refused.value.1,
            }),
        }
    }

    /// Puts a value under a name, and gives the one that stood there, `None` where none did; only a new name is
    /// copied.
    ///
    /// Errors: `NoMemory`, and then the map is unchanged.
    pub fn put(&mut self, alloc: Global, name: &Text, item: T) -> Result<Option<T>, NoMemory>
        ensures stood { IfOk result (λ stood. stood ≡ map.get self.old name.now) }
        ensures ok { OnOk result (self.new ≡ map.insert self.old name.now item) }
        ensures err { OnErr result (self.new ≡ self.old) }
    {
        if let Some(place) = self.items.get_mut(name) {
            return Ok(Some(mem::replace(place, item)));
        }
        Ok(self.insert(alloc, name, item)?)
    }

    /// Puts a value in place of the one that stands under a name. Takes no memory.
    pub fn set(&mut self, name: &Text, item: T)
        requires { IsTrue (map.contains_key self.old name.now) }
        ensures { self.new ≡ map.insert self.old name.now item }
    {
        match self.items.get_mut(name) {
            Some(place) => *place = item,
            None => unreachable!(),
        }
    }

    /// Makes what stood under a name stand there again, in place of what does. Takes no memory.
    pub(crate) fn put_back(&mut self, name: &Text, stood: Option<T>)
        requires { IsTrue (map.contains_key self.old name.now) }
        ensures { self.new ≡ put_back self.old name.now stood }
    {
        match stood {
            Some(stood) => self.set(name, stood),
            None => {
                self.take(name);
            }
        }
    }

    /// Takes the value under a name out. `None` where none stands there.
    pub fn take(&mut self, name: &Text) -> Option<T>
        ensures value { result ≡ map.get self.old name.now }
        ensures rest { self.new ≡ map.remove self.old name.now }
    {
        self.items.remove(name)
    }
}
