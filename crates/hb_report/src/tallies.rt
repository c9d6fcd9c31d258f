//! What a trace counts of its links.

ghost use Rattle.std.specs.Prelude.{◌≡◌, ◌+◌, ℕ, length, IfOk, OnOk};
ghost use Rattle.std.specs.FinMap as map;
ghost use Rattle.hb_report.specs.Tally.{tally_of};
ghost use Rattle.hb_report.specs.Tallies.{tally_in, tally_after};

use hb_base::{Bytes, Cause, NoMemory};
use hb_world::Entry;
use std::alloc::Global;
use std::collections::BTreeMap;
use std::marker::Model;

/// What a trace says of one link.
#[derive(Clone, Copy)]
pub(crate) struct Tally {
    /// How many bytes came.
    pub(crate) received: u64,
    /// How many bytes went.
    pub(crate) sent: u64,
    /// The cause of its close.
    pub(crate) cause: Option<Cause>,
}

/// Tallies under the numbers of their links. Contracts see a finite map.
#[derive(Drop)]
pub(crate) struct Tallies {
    items: BTreeMap<u64, Tally>,
}

impl Model for Tallies {
    ghost use Rattle.std.specs.FinMap.{FinMap, from_entries, code};
    ghost use Rattle.std.specs.Coded.{coded_ℕ};
    ghost use Rattle.std.specs.Ordering.{nat_cmp};
    ghost use Rattle.hb_report.specs.declared.tallies.Tally.{Tally as Counts};
    ghost use Rattle.hb_report.specs.contracts.tallies.Tally as tally;

    ghost Value = { FinMap nat_cmp Counts };

    ghost coded = { code coded_ℕ tally.the_row.coded };

    ghost view = { λ m. from_entries m.items.entries };
}

impl Tallies {
    /// No tallies, which take no memory.
    fn new(alloc: Global) -> Tallies
        ensures { result ≡ map.empty }
    {
        Tallies {
            items: BTreeMap::new(alloc),
        }
    }

    /// The tally of a link; one of nothing where none was put.
    pub(crate) fn get(&self, link: u64) -> Tally
        ensures { result ≡ tally_in self.now link }
    {
        match self.items.get(&link) {
            Some(tally) => *tally,
            None => Tally {
                received: 0,
                sent: 0,
                cause: None,
            },
        }
    }

    fn put(&mut self, link: u64, tally: Tally) -> Result<(), NoMemory>
        ensures ok { OnOk result (self.new ≡ map.insert self.old link tally) }
    {
        self.items.insert(link, tally)?;
        Ok(())
    }

    /// Counts an entry. More than 2 ^ 64 - 1 bytes, which no memory holds, are told as want of memory.
    fn add(&mut self, entry: &Entry) -> Result<(), NoMemory>
        ensures { OnOk result ((link : ℕ) → tally_in self.new link ≡ tally_after link (tally_in self.old link) entry.now) }
    {
        match entry {
            Entry::Came(link, bytes) => {
                let mut tally = self.get(*link);
                tally.received = longer(tally.received, bytes)?;
                self.put(*link, tally)
            }
            Entry::Went(link, bytes) => {
                let mut tally = self.get(*link);
                tally.sent = longer(tally.sent, bytes)?;
                self.put(*link, tally)
            }
            Entry::Closed(link, cause) => {
                let mut tally = self.get(*link);
                tally.cause = tally.cause.or(Some(*cause));
                self.put(*link, tally)
            }
            _ => Ok(()),
        }
    }

    /// The tallies of a trace's links.
    pub(crate) fn of(alloc: Global, trace: &[Entry]) -> Result<Tallies, NoMemory>
        ensures { IfOk result (λ tallies. (link : ℕ) → tally_in tallies link ≡ tally_of link trace.now) }
    {
        let mut tallies = Tallies::new(alloc);
        for entry in trace {
            tallies.add(entry)?;
        }
        Ok(tallies)
    }
}

/// A count with the bytes of one more piece.
fn longer(count: u64, piece: &Bytes) -> Result<u64, NoMemory>
    ensures { IfOk result (λ sum. sum ≡ count + length piece.now) }
{
    let bytes = piece.as_slice().len() as u64;
    count.checked_add(bytes).ok_or(NoMemory)
}
