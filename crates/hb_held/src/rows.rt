//! All resources held, by kind and name.

ghost use Rattle.std.specs.Prelude.{◌≡◌, IfOk, slice_get};
ghost use Rattle.std.specs.FinMap as map;
ghost use Rattle.std.specs.Iterator.{YieldsFirstBy, item_count};
ghost use Rattle.std.specs.Option.{option_map};
ghost use Rattle.hb_held.specs.Rows.{rows, rows_left, row_as, versions, versions_in};

use crate::held::Held;
use crate::versioned::Versioned;
use hb_base::{List, NoMemory, Text};
use hb_disco::{Kind, NameVersion};
use hb_index::ByName;
use hb_records::{AddressRecord, Authorization};
use std::alloc::Global;
use std::collections::btree_map::Iter;

/// The record of a resource held.
#[derive(Drop)]
pub enum HeldRecord<'a> {
    Address(&'a AddressRecord),
    Policy(&'a Authorization),
}

/// A resource held.
#[derive(Drop)]
pub struct HeldRow<'a> {
    pub kind: Kind,
    pub name: &'a Text,
    pub version: &'a Text,
    pub content: HeldRecord<'a>,
}

/// All resources held: the addresses by name, and then the policies. Takes no memory.
#[derive(Drop)]
pub struct Rows<'a> {
    addresses: Iter<'a, Text, Versioned<AddressRecord>>,
    policies: Iter<'a, Text, Versioned<Authorization>>,
}

impl<'a> Iterator for Rows<'a> {
    type Item = HeldRow<'a>;

    ghost next_gives = { YieldsFirstBy row_as rows_left };

    ghost remaining = { item_count rows_left };

    fn next(&mut self) -> Option<HeldRow<'a>> {
        if let Some((name, held)) = self.addresses.next() {
            return Some(HeldRow {
                kind: Kind::Address,
                name,
                version: &held.version,
                content: HeldRecord::Address(&held.content),
            });
        }
        let (name, held) = self.policies.next()?;
        Some(HeldRow {
            kind: Kind::Authorization,
            name,
            version: &held.version,
            content: HeldRecord::Policy(&held.content),
        })
    }
}

/// The names and versions of what is held under names.
fn versions_in<T>(
    alloc: Global,
    items: &ByName<Versioned<T>>,
) -> Result<List<NameVersion>, NoMemory>
    ensures { IfOk result (λ list. list ≡ versions_in (map.entries items.now)) }
{
    let mut versions = List::new(alloc);
    let mut rest = items.iter();
    while let Some((name, held)) = rest.next() {
        let name = name.copy(alloc)?;
        let version = held.version.copy(alloc)?;
        versions.push(NameVersion { name, version })?;
    }
    Ok(versions)
}

impl Held {
    /// All resources held, by kind, addresses first, and then by name.
    pub fn rows(&self) -> Rows<'_>
        ensures { rows_left result ≡ rows self.now }
    {
        Rows {
            addresses: self.addresses.now().iter(),
            policies: self.policies.now().iter(),
        }
    }

    /// The resource at place `i` of these, counted from 0; `None` exactly where fewer are held.
    pub fn nth(&self, i: usize) -> Option<HeldRow<'_>>
        ensures { option_map row_as result ≡ slice_get (rows self.now) i }
    {
        let mut rows = self.rows();
        let mut before = i;
        while before > 0 {
            rows.next()?;
            before -= 1;
        }
        rows.next()
    }

    /// The names and versions of the resources of a kind, by name.
    ///
    /// Errors: `NoMemory`.
    pub fn versions(&self, alloc: Global, kind: Kind) -> Result<List<NameVersion>, NoMemory>
        ensures { IfOk result (λ list. list ≡ versions self.now kind) }
    {
        match kind {
            Kind::Address => versions_in(alloc, self.addresses.now()),
            Kind::Authorization => versions_in(alloc, self.policies.now()),
        }
    }
}
