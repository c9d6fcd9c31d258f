//! The trace of a world that keeps it, with the lives of its links.

ghost use Rattle.std.specs.Prelude.{◌≡◌, ◌<◌, ◌+◌, ◌-◌, ◌^◌, [], ◌∷◌, ◌++◌, IsTrue, OnOk, OnErr, IfOk};
ghost use Rattle.hb_world.specs.Calls.{shut_entries, close_entries};
ghost use Rattle.hb_world.specs.LifeEntries.{is_plain, IsBirth};
ghost use Rattle.hb_world.specs.Lives.{life_of, owed_by};
ghost use Rattle.hb_world.specs.Trace.{births, lives};

use crate::entry::Entry;
use crate::journal::Journal;
use hb_base::{Cause, NoMemory};
use std::alloc::Global;
use std::marker::Model;

/// What happened to a link that was born.
#[derive(Clone, Copy)]
pub struct Life {
    shut: bool,
    closed: bool,
}

/// A trace, with the lives of its links at hand. Contracts see its entries. A shut and a close take no memory.
#[derive(Drop)]
pub struct Trace {
    journal: Journal,
    lives: Vec<Life>,
}

impl Model for Trace {
    ghost use Rattle.std.specs.Prelude.{List};
    ghost use Rattle.hb_world.specs.declared.entry.Entry.{Entry};
    ghost use Rattle.hb_world.specs.Lives.{AreLives};

    ghost Value = { List Entry };

    ghost view = { λ t. t.journal.entries };

    ghost invariant = { λ t. AreLives t.lives.items t.journal.owed t.journal.entries };
}

impl Trace {
    /// The empty trace.
    pub fn new(alloc: Global) -> Trace
        ensures { result ≡ [] }
    {
        Trace {
            journal: Journal::new(alloc),
            lives: Vec::new(alloc),
        }
    }

    /// The entries, in order.
    pub fn entries(&self) -> &[Entry]
        ensures { result.now ≡ self.now }
    {
        self.journal.entries()
    }

    /// How many links were born.
    pub fn births(&self) -> u64
        ensures { result ≡ births self.now }
    {
        self.lives.len() as u64
    }

    /// Whether the link lives.
    pub fn lives(&self, link: u64) -> bool
        ensures { result ≡ lives link self.now }
    {
        match life_at(self.lives.as_slice(), link) {
            Some(life) => !life.closed,
            None => false,
        }
    }

    /// Adds an entry at the end, neither a birth nor a Shut nor a Closed.
    ///
    /// Errors: `NoMemory`, and then the trace is unchanged.
    pub fn add(&mut self, entry: Entry) -> Result<(), NoMemory>
        requires { IsTrue (is_plain entry) }
        ensures ok { OnOk result (self.new ≡ self.old ++ entry ∷ []) }
        ensures err { OnErr result (self.new ≡ self.old) }
    {
        self.journal.add(entry)?;
        Ok(())
    }

    /// Adds two such entries.
    ///
    /// Errors: `NoMemory`, and then the trace is unchanged.
    pub fn add_both(&mut self, first: Entry, second: Entry) -> Result<(), NoMemory>
        requires first { IsTrue (is_plain first) }
        requires second { IsTrue (is_plain second) }
        ensures ok { OnOk result (self.new ≡ self.old ++ first ∷ second ∷ []) }
        ensures err { OnErr result (self.new ≡ self.old) }
    {
        self.journal.add_both(first, second)?;
        Ok(())
    }

    /// Adds the birth of the next link at the end.
    ///
    /// Errors: `NoMemory`, and then the trace is unchanged.
    pub fn add_birth(&mut self, birth: Entry) -> Result<(), NoMemory>
        requires { IsBirth (births self.old + 1) birth }
        ensures ok { OnOk result (self.new ≡ self.old ++ birth ∷ []) }
        ensures err { OnErr result (self.new ≡ self.old) }
    {
        self.lives.reserve(1)?;
        self.journal.add_birth(birth)?;
        let fresh = Life {
            shut: false,
            closed: false,
        };
        match self.lives.push(fresh) {
            Ok(()) => Ok(()),
            Err(_) => unreachable!(),
        }
    }

    /// Shuts a link that lives and wasn't shut.
    pub fn shut(&mut self, link: u64)
        ensures { self.new ≡ self.old ++ shut_entries link self.old }
    {
        let Some(life) = life_at(self.lives.as_slice(), link) else {
            return;
        };
        if life.closed || life.shut {
            return;
        }
        self.lives[(link - 1) as usize] = Life {
            shut: true,
            closed: false,
        };
        self.journal.pay(Entry::Shut(link), 1);
    }

    /// Closes a link that lives.
    pub fn close(&mut self, link: u64, cause: Cause)
        ensures { self.new ≡ self.old ++ close_entries link cause self.old }
    {
        let Some(life) = life_at(self.lives.as_slice(), link) else {
            return;
        };
        if life.closed {
            return;
        }
        let settled = entries_owed(life);
        self.lives[(link - 1) as usize] = Life {
            shut: life.shut,
            closed: true,
        };
        self.journal.pay(Entry::Closed(link, cause), settled);
    }
}

/// How many entries the link still owes.
fn entries_owed(life: Life) -> usize
    ensures { result ≡ owed_by life }
{
    if life.closed {
        0
    } else if life.shut {
        1
    } else {
        2
    }
}

/// The life of a link, by its number.
fn life_at(lives: &[Life], link: u64) -> Option<Life>
    ensures { result ≡ life_of lives.now link }
{
    let place = link.checked_sub(1)?;
    lives.get(place as usize).copied()
}
