//! A trace that is kept.

ghost use Rattle.std.specs.Prelude.{◌≡◌, ◌<◌, ◌≤◌, ◌+◌, ◌-◌, [], ◌∷◌, ◌++◌, OnOk, OnErr};
ghost use Rattle.hb_world.specs.Journal.{Kept};

use crate::entry::Entry;
use hb_base::NoMemory;
use std::alloc::Global;
use std::marker::Model;

/// A trace, with room for entries that are owed and take no memory when they come. Contracts see the
/// entries and how many more are owed.
#[derive(Drop)]
pub struct Journal {
    entries: Vec<Entry>,
    owed: usize,
}

impl Model for Journal {
    ghost use Rattle.std.specs.Prelude.{◌+◌, ◌≤◌, vec_len, vec_capacity};
    ghost use Rattle.hb_world.specs.Journal.{Kept};

    ghost Value = { Kept };

    ghost view = { λ j. record { entries = j.entries.items; owed = j.owed } };

    ghost invariant = { λ j. vec_len j.entries + j.owed ≤ vec_capacity j.entries };
}

impl Journal {
    /// No entry, and none is owed.
    pub fn new(alloc: Global) -> Journal
        ensures { result ≡ record { entries = []; owed = 0 } }
    {
        Journal {
            entries: Vec::new(alloc),
            owed: 0,
        }
    }

    /// The entries, in order.
    pub fn entries(&self) -> &[Entry]
        ensures { result.now ≡ self.now.entries }
    {
        self.entries.as_slice()
    }

    /// Adds an entry at the end.
    ///
    /// Errors: `NoMemory`, and then nothing changes.
    pub fn add(&mut self, entry: Entry) -> Result<(), NoMemory>
        ensures ok { OnOk result (self.new ≡ record self.old { entries = self.old.entries ++ entry ∷ [] }) }
        ensures err { OnErr result (self.new ≡ self.old) }
    {
        self.entries
            .reserve(self.owed.checked_add(1).ok_or(NoMemory)?)?;
        match self.entries.push(entry) {
            Ok(()) => Ok(()),
            Err(_) => unreachable!(),
        }
    }

    /// Adds two entries at the end.
    ///
    /// Errors: `NoMemory`, and then nothing changes.
    pub fn add_both(&mut self, first: Entry, second: Entry) -> Result<(), NoMemory>
        ensures ok { OnOk result (self.new ≡ record self.old { entries = self.old.entries ++ first ∷ second ∷ [] }) }
        ensures err { OnErr result (self.new ≡ self.old) }
    {
        self.entries
            .reserve(self.owed.checked_add(2).ok_or(NoMemory)?)?;
        match self.entries.push(first) {
            Ok(()) => {}
            Err(_) => unreachable!(),
        }
        match self.entries.push(second) {
            Ok(()) => Ok(()),
            Err(_) => unreachable!(),
        }
    }

    /// Adds the birth of a link at the end. Its Shut and its Closed are owed from now on.
    ///
    /// Errors: `NoMemory`, and then nothing changes.
    pub fn add_birth(&mut self, birth: Entry) -> Result<(), NoMemory>
        ensures ok { OnOk result (self.new ≡ record { entries = self.old.entries ++ birth ∷ []; owed = self.old.owed + 2 }) }
        ensures err { OnErr result (self.new ≡ self.old) }
    {
        self.entries
            .reserve(self.owed.checked_add(3).ok_or(NoMemory)?)?;
        self.owed += 2;
        match self.entries.push(birth) {
            Ok(()) => Ok(()),
            Err(_) => unreachable!(),
        }
    }

    /// Adds an entry that was owed, after which so many fewer are.
    pub fn pay(&mut self, entry: Entry, settled: usize)
        requires some { 0 < settled }
        requires owed { settled ≤ self.old.owed }
        ensures { self.new ≡ record { entries = self.old.entries ++ entry ∷ []; owed = self.old.owed - settled } }
    {
        self.owed -= settled;
        match self.entries.push(entry) {
            Ok(()) => {}
            Err(_) => unreachable!(),
        }
    }
}
