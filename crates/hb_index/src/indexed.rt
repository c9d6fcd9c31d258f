//! Values under names, with an index by their numbers.

ghost use Rattle.std.specs.Prelude.{◌≡◌, ◌⊎◌, ℕ, take, IfOk, IfErr, OnOk, OnErr};
ghost use Rattle.std.specs.FinMap.{empty, get, contains_key, insert, remove};
ghost use Rattle.std.specs.Option.{option_copied};
ghost use Rattle.hb_index.specs.Index.{with_all, without_all};
ghost use Rattle.hb_index.specs.Indexed.{numbers_in, has_number, AreNamesAt};
ghost use Rattle.hb_index.specs.Kept.{note, note_removal};
ghost use Rattle.hb_index.specs.Named.{IsFirstBehind};

use crate::by_name::ByName;
use crate::index::Index;
use crate::kept::{Kept, note};
use crate::numbered::Numbered;
use hb_base::{List, NoMemory, Text};
use std::alloc::{AllocFailed, Global};
use std::marker::Model;

/// Values under names, and what stood under each name that was changed. The index finds the names of a number. Contracts
/// see the values and what stood.
#[derive(Drop)]
pub struct Indexed<T: Numbered> {
    kept: Kept<T>,
    index: Index,
}

impl<T: Numbered> Model for Indexed<T> {
    ghost use Rattle.hb_index.specs.Indexed.{KeptValues, IsIndexed, kept_code};

    ghost Value = { KeptValues T };

    ghost coded = { kept_code T.code };

    ghost view = { λ a. a.kept };

    ghost invariant = { λ a. IsIndexed T.numbers a.kept.now a.index };
}

/// The numbers of what stands under a name.
fn numbers_of<T: Numbered>(alloc: Global, stands: Option<&T>) -> Result<List<u128>, NoMemory>
    ensures { IfOk result (λ l. l ≡ numbers_in T.numbers (option_copied stands.entry)) }
{
    match stands {
        Some(stands) => stands.list_numbers(alloc),
        None => Ok(List::new(alloc)),
    }
}

/// Puts the name under these numbers, and then notes what stood under the name. With want of memory it comes back, and
/// nothing is changed but that the name may stand under some first of these numbers.
fn list_and_note<T: Drop>(
    alloc: Global,
    index: &mut Index,
    past: &mut ByName<Option<T>>,
    name: &Text,
    stood: Option<T>,
    numbers: &[u128],
) -> Result<(), AllocFailed<Option<T>>>
    ensures listed { OnOk result (index.new ≡ with_all index.old name.now numbers.now) }
    ensures some { OnErr result ((n : ℕ) × (index.new ≡ with_all index.old name.now (take n numbers.now))) }
    ensures past { OnOk result (past.new ≡ note past.old name.now stood) }
    ensures back { IfErr result (λ refused. refused.value ≡ stood) }
    ensures err { OnErr result (past.new ≡ past.old) }
{
    match index.add_all(alloc, name, numbers) {
        Ok(()) => note(past, alloc, name, stood),
        Err(_) => Err(AllocFailed { value: stood }),
    }
}

/// Lists the name under these numbers in place of those of what stood under it, if they differ, and notes what stood. With
/// want of memory it comes back, and the index finds the name by the same numbers as before.
fn list_anew<T: Numbered + Drop>(
    alloc: Global,
    index: &mut Index,
    past: &mut ByName<Option<T>>,
    name: &Text,
    stood: Option<T>,
    numbers: &[u128],
) -> Result<(), AllocFailed<Option<T>>>
    ensures listed { OnOk result (((numbers_in T.numbers stood ≡ numbers.now) × (index.new ≡ index.old))
        ⊎ (index.new ≡ without_all (with_all index.old name.now numbers.now) name.now (numbers_in T.numbers stood) numbers.now)) }
    ensures unlisted { OnErr result ((index.new ≡ index.old)
        ⊎ ((n : ℕ) × (index.new ≡ without_all (with_all index.old name.now (take n numbers.now)) name.now
        numbers.now (numbers_in T.numbers stood)))) }
    ensures past { OnOk result (past.new ≡ note past.old name.now stood) }
    ensures back { IfErr result (λ refused. refused.value ≡ stood) }
    ensures err { OnErr result (past.new ≡ past.old) }
{
    let Ok(before) = numbers_of(alloc, stood.as_ref()) else {
        return Err(AllocFailed { value: stood });
    };
    let before = before.as_slice();
    if before == numbers {
        return note(past, alloc, name, stood);
    }
    match list_and_note(alloc, index, past, name, stood, numbers) {
        Ok(()) => {
            index.take_all(name, before, numbers);
            Ok(())
        }
        Err(refused) => {
            index.take_all(name, numbers, before);
            Err(refused)
        }
    }
}

impl<T: Numbered> Indexed<T> {
    /// Nothing is held and nothing was changed. Takes no memory.
    pub fn new(alloc: Global) -> Indexed<T>
        ensures now { result.now ≡ empty }
        ensures past { result.past ≡ empty }
    {
        Indexed {
            kept: Kept::new(alloc),
            index: Index::new(alloc),
        }
    }

    /// What is held.
    pub fn now(&self) -> &ByName<T>
        ensures { result.now ≡ self.now.now }
    {
        &self.kept.now
    }

    /// What stood under the names that were changed; `None` under one where nothing did.
    pub fn past(&self) -> &ByName<Option<T>>
        ensures { result.now ≡ self.now.past }
    {
        &self.kept.past
    }

    /// The names of the values with a number; `None` where there are none. Takes no memory.
    pub fn names_at(&self, number: u128) -> Option<&ByName<()>>
        ensures { AreNamesAt T.numbers self.now.now number (option_copied result) }
    {
        self.index.names(number)
    }

    /// Of the names of the values with a number the first behind `name`, by bytes, or the first of all; `None` where there is
    /// none. Takes no memory.
    pub fn first_behind(&self, number: u128, name: Option<&Text>) -> Option<&Text>
        ensures { IsFirstBehind (has_number T.numbers self.now.now number) (option_copied name.entry) (option_copied result) }
    {
        self.names_at(number)?.first_behind(name)
    }
}

impl<T: Numbered + Drop> Indexed<T> {
    /// Forgets what was changed so far.
    pub fn begin(&mut self, alloc: Global)
        ensures now { self.new.now ≡ self.old.now }
        ensures past { self.new.past ≡ empty }
    {
        self.kept.begin(alloc);
    }

    /// Puts a value under a name, in place of one that stood there, which is noted.
    ///
    /// Errors: `NoMemory`; nothing is changed then.
    pub fn put(&mut self, alloc: Global, name: &Text, item: T) -> Result<(), NoMemory>
        ensures now { OnOk result (self.new.now ≡ insert self.old.now name.now item) }
        ensures past { OnOk result (self.new.past ≡ note self.old.past name.now (get self.old.now name.now)) }
        ensures err { OnErr result (self.new ≡ self.old) }
    {
        let numbers = item.list_numbers(alloc)?;
        let numbers = numbers.as_slice();
        let stood = self.kept.now.insert(alloc, name, item)?;
        if let Err(refused) = list_anew(
            alloc,
            &mut self.index,
            &mut self.kept.past,
            name,
            stood,
            numbers,
        ) {
            self.kept.now.put_back(name, refused.value);
            return Err(NoMemory);
        }
        Ok(())
    }

    /// Takes the value under a name out, which is noted, and tells whether one stood there.
    ///
    /// Errors: `NoMemory`; nothing is changed then.
    pub fn remove(&mut self, alloc: Global, name: &Text) -> Result<bool, NoMemory>
        ensures held { IfOk result (λ held. held ≡ contains_key self.old.now name.now) }
        ensures now { OnOk result (self.new.now ≡ remove self.old.now name.now) }
        ensures past { OnOk result (self.new.past ≡ note_removal self.old.past name.now (get self.old.now name.now)) }
        ensures err { OnErr result (self.new ≡ self.old) }
    {
        let before = numbers_of(alloc, self.kept.now.get(name))?;
        let held = self.kept.remove(alloc, name)?;
        self.index.take_all(name, before.as_slice(), &[]);
        Ok(held)
    }
}
