ghost use Rattle.std.specs.Prelude.{◌≡◌, OnOk, OnErr, IfOk, IfErr, IfSome, IfNone};
ghost use Rattle.std.specs.Option.{option_copied, option_map};
ghost use Rattle.std.specs.Borrow.{sem};
ghost use Rattle.std.specs.FinMap as map;
ghost use Rattle.hb_map.specs.Keyed.{IsFirstFrom};
ghost use Rattle.hb_map.specs.Lending.{LendsById};
ghost use Rattle.hb_map.specs.Places.{numbered, AreRising, IsAt, IsGapFor};

use crate::key::Key;
use hb_base::NoMemory;
use std::alloc::Global;
use std::marker::Model;

/// Values under numbers, one at most under each. Contracts see the finite map from the numbers to the
/// values.
#[derive(Drop)]
pub struct ById<K: Key, T> {
    /// By rising numbers: a tree's nodes would stay half full, since streams are numbered upwards.
    items: Vec<(K, T)>,
}

impl<K: Key, T> Model for ById<K, T> {
    ghost use Rattle.std.specs.FinMap.{FinMap, from_entries, code};
    ghost use Rattle.std.specs.Coded.{coded_ℕ};
    ghost use Rattle.std.specs.Ordering.{nat_cmp};
    ghost use Rattle.hb_map.specs.Places.{numbered, AreRising};

    ghost Value = { FinMap nat_cmp T };

    ghost coded = { code coded_ℕ T.code };

    ghost view = { λ m. from_entries (numbered K.number m.items.items) };

    ghost invariant = { λ m. AreRising (numbered K.number m.items.items) };
}

/// The place of the number, or where it would go.
fn search<K: Key, T>(items: &[(K, T)], id: K) -> Result<usize, usize>
    requires { AreRising (numbered K.number items.now) }
    ensures found { IfOk result (IsAt (numbered K.number items.now) (K.number id)) }
    ensures absent { IfErr result (IsGapFor (numbered K.number items.now) (K.number id)) }
{
    items.binary_search_by_key(&id.to_u64(), |item| item.0.to_u64())
}

impl<K: Key, T> ById<K, T> {
    /// The empty map, which takes no memory.
    pub fn new(alloc: Global) -> ById<K, T>
        ensures { result ≡ map.empty }
    {
        ById {
            items: Vec::new(alloc),
        }
    }

    /// How many values it holds.
    pub fn len(&self) -> usize
        ensures { result ≡ map.len self.now }
    {
        self.items.as_slice().len()
    }

    /// The value under a number. `None` where none stands there.
    pub fn get(&self, id: K) -> Option<&T>
        ensures { option_copied result ≡ map.get self.now (K.number id) }
    {
        match search(&self.items, id) {
            Ok(at) => Some(&self.items[at].1),
            Err(_) => None,
        }
    }

    /// The value under a number, to be changed. `None` where none stands there.
    pub fn at(&mut self, id: K) -> Option<&mut T>
        ensures* after { sem 𝓛 (LendsById K.row T.row K.Key self.entry (K.number id) result) }
        ensures value { IfSome result (λ item. map.get self.old (K.number id) ≡ Some item.now) }
        ensures none { IfNone result (map.get self.old (K.number id) ≡ None) }
    {
        match search(&self.items, id) {
            Ok(at) => Some(&mut self.items[at].1),
            Err(_) => None,
        }
    }

    /// Takes the value under a number out. `None` where none stands there.
    pub fn remove(&mut self, id: K) -> Option<T>
        ensures value { result ≡ map.get self.old (K.number id) }
        ensures rest { self.new ≡ map.remove self.old (K.number id) }
    {
        match search(&self.items, id) {
            Ok(at) => Some(self.items.remove(at).1),
            Err(_) => None,
        }
    }

    /// The least number from `id` on that has a value. `None` where there is none.
    pub fn first_from(&self, id: K) -> Option<K>
        ensures { IsFirstFrom self.now (K.number id) (option_map K.number result) }
    {
        match search(&self.items, id) {
            Ok(_) => Some(id),
            Err(at) if at < self.items.len() => Some(self.items[at].0),
            Err(_) => None,
        }
    }
}

impl<K: Key, T: Drop> ById<K, T> {
    /// Puts a value under a number, in place of one that stood there.
    ///
    /// Errors: `NoMemory`, and then the map is unchanged and the value dropped.
    pub fn put(&mut self, id: K, item: T) -> Result<(), NoMemory>
        ensures ok { OnOk result (self.new ≡ map.insert self.old (K.number id) item) }
        ensures err { OnErr result (self.new ≡ self.old) }
    {
        match search(&self.items, id) {
            Ok(at) => {
                self.items[at] = (id, item);
                Ok(())
            }
            Err(at) => {
                self.items.insert(at, (id, item))?;
                Ok(())
            }
        }
    }
}
