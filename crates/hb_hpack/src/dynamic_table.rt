//! The dynamic table (RFC 7541 sections 2.3.2 and 4).

ghost use Rattle.std.specs.Prelude.{◌≡◌, ◌≤◌, ◌∷◌, OnOk, List, [], slice_get};
ghost use Rattle.std.specs.Option.{option_copied};
ghost use Rattle.hb_hpack.specs.Table.{total, fitting};

use hb_base::{Bytes, NoMemory};
use std::alloc::Global;
use std::collections::VecDeque;
use std::marker::Model;

/// The most that the sizes of the entries may ever sum to: the default of HTTP/2 (RFC 9113 section 6.5.2).
pub(crate) const LARGEST: u64 = 4096;

/// A header of the table, its name and behind it its value in one piece. Contracts see it as the header.
#[derive(Drop)]
pub struct Entry {
    octets: Bytes,
    name_length: usize,
}

impl Model for Entry {
    ghost use Rattle.std.specs.Prelude.{◌≤◌, length, take, drop};
    ghost use Rattle.hb_hpack.specs.declared.header.Header.{Header};
    ghost use Rattle.hb_hpack.specs.StaticTable.{header};

    ghost Value = { Header };

    ghost view = { λ e. header (take e.name_length e.octets) (drop e.name_length e.octets) };

    ghost invariant = { λ e. e.name_length ≤ length e.octets };
}

impl Entry {
    ghost use Rattle.std.specs.Prelude.{◌≡◌, ◌-◌, ◌^◌, min, IfOk};
    ghost use Rattle.hb_hpack.specs.StaticTable.{header};
    ghost use Rattle.hb_hpack.specs.Table.{size_of};

    pub(crate) fn of(alloc: Global, name: &[u8], value: &[u8]) -> Result<Entry, NoMemory>
        ensures { IfOk result (λ r. r ≡ header name.now value.now) }
    {
        let mut octets = Vec::with_capacity(alloc, name.len() + value.len())?;
        octets.extend_from_slice(name)?;
        octets.extend_from_slice(value)?;
        Ok(Entry {
            octets: Bytes::from_vec(octets),
            name_length: name.len(),
        })
    }

    /// Its name and its value.
    #[inline(always)]
    pub(crate) fn parts(&self) -> (&[u8], &[u8])
        ensures { header result.0.now result.1.now ≡ self.now }
    {
        self.octets.as_slice().split_at(self.name_length)
    }

    /// Its size (RFC 7541 section 4.1).
    fn size(&self) -> u64
        ensures { result ≡ min (size_of self.now) (2 ^ 64 - 1) }
    {
        (self.octets.as_slice().len() as u64).saturating_add(32)
    }
}

/// The headers that a block may name beside the static ones, the newest first.
#[derive(Drop)]
pub struct DynamicTable {
    entries: VecDeque<Entry>,
    size: u64,
    maximum: u64,
}

impl Model for DynamicTable {
    ghost use Rattle.std.specs.Prelude.{◌≡◌, ◌≤◌};
    ghost use Rattle.hb_hpack.specs.Table.{Table, total};

    ghost Value = { Table };

    ghost view = { λ t. record { entries = t.entries.items; maximum = t.maximum } };

    ghost invariant = { λ t. (t.size ≡ total t.entries.items) × (t.size ≤ t.maximum) × (t.maximum ≤ 4096) };
}

/// Drops the oldest entries until the sizes sum to at most `limit`. Gives their sum.
fn evict(entries: &mut VecDeque<Entry>, size: u64, limit: u64) -> u64
    requires { size ≡ total entries.old.items }
    ensures entries { entries.new.items ≡ fitting limit entries.old.items }
    ensures size { result ≡ total entries.new.items }
    ensures fits { result ≤ limit }
{
    let mut size = size;
    while limit < size {
        match entries.pop_back() {
            None => unreachable!(),
            Some(oldest) => size -= oldest.size(),
        }
    }
    size
}

impl DynamicTable {
    ghost use Rattle.hb_hpack.specs.Table.{Table, total, added, resized};

    /// The empty table, with the largest maximum.
    pub(crate) fn new(alloc: Global) -> DynamicTable
        ensures { result ≡ record { entries = []; maximum = 4096 } }
    {
        DynamicTable {
            entries: VecDeque::new(alloc),
            size: 0,
            maximum: LARGEST,
        }
    }

    /// The sum of the sizes.
    pub(crate) fn size(&self) -> u64
        ensures size { result ≡ total self.now.entries }
        ensures small { result ≤ 4096 }
    {
        self.size
    }

    /// The entry at this place, the newest at 0.
    #[inline(always)]
    pub(crate) fn get(&self, place: usize) -> Option<&Entry>
        ensures { option_copied result ≡ slice_get self.now.entries place }
    {
        self.entries.get(place)
    }

    /// Enters a header. On NoMemory the table isn't used again.
    pub(crate) fn add(&mut self, entry: Entry) -> Result<(), NoMemory>
        ensures { OnOk result (self.new ≡ added self.old entry) }
    {
        let size = entry.size();
        if self.maximum < size {
            self.size = evict(&mut self.entries, self.size, 0);
            return Ok(());
        }
        self.size = evict(&mut self.entries, self.size, self.maximum - size);
        self.entries.push_front(entry)?;
        self.size += size;
        Ok(())
    }

    /// Sets the maximum.
    pub(crate) fn resize(&mut self, maximum: u64)
        requires { maximum ≤ 4096 }
        ensures { self.new ≡ resized self.old maximum }
    {
        self.size = evict(&mut self.entries, self.size, maximum);
        self.maximum = maximum;
    }
}
