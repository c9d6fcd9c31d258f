//! The workloads that serve a service.

ghost use Rattle.std.specs.Prelude.{◌≡◌, filter};
ghost use Rattle.std.specs.FinMap.{get, entries};
ghost use Rattle.std.specs.Iterator.{YieldsFirstBy, item_count};
ghost use Rattle.std.specs.List.{list_any, filter_map};
ghost use Rattle.std.specs.Option.{option_copied};
ghost use Rattle.std.specs.Str.{bytes_eq};
ghost use Rattle.hb_index.specs.Index.{names_or_none};
ghost use Rattle.hb_held.specs.Endpoints.{joined, serves, endpoints, entries_left, TakesNext, endpoints_left};
ghost use Rattle.hb_held.specs.Lookup.{found_as, found_by, workload_in, named_workload};

use crate::found::Found;
use crate::held::Held;
use crate::joined::is_joined;
use crate::numbers::joined_number;
use crate::versioned::Versioned;
use hb_base::{List, Text};
use hb_index::{ByName, Indexed};
use hb_records::{AddressRecord, ServicePorts, Workload};
use std::collections::btree_map::Iter;

/// One of the services has the key `namespace/hostname`.
fn is_listed(services: &List<ServicePorts>, namespace: &Text, hostname: &Text) -> bool
    ensures { result ≡ list_any (λ s. bytes_eq s.key (joined namespace.now hostname.now)) services.now }
{
    services.as_slice().iter().any(|service| is_joined(
        service.key.as_slice(),
        namespace.as_slice(),
        hostname.as_slice(),
    ))
}

/// The workload is of the network and serves the service.
fn serves(network: &Text, namespace: &Text, hostname: &Text, workload: &Workload) -> bool
    ensures { result ≡ serves network.now namespace.now hostname.now workload.now }
{
    workload.network.as_slice() == network.as_slice()
        && is_listed(&workload.services, namespace, hostname)
}

/// The workloads of this network that serve a service, by their resources' names. Takes no memory.
#[derive(Drop)]
pub struct Endpoints<'a> {
    addresses: &'a ByName<Versioned<AddressRecord>>,
    network: &'a Text,
    namespace: &'a Text,
    hostname: &'a Text,
    /// The names that the index has for the service and that weren't looked at.
    names: Option<Iter<'a, Text, ()>>,
}

impl<'a> Endpoints<'a> {
    /// The next name that the index has for the service.
    fn next_name(&mut self) -> Option<&'a Text>
        ensures same { self.new ≡ record self.old { names = self.new.names } }
        ensures steps { TakesNext (entries_left self.old.names) (entries_left self.new.names) (option_copied result) }
    {
        let names = self.names.as_mut()?;
        let (name, _) = names.next()?;
        Some(name)
    }

    /// The workload under a name, where it serves the service.
    fn endpoint_at(&self, name: &Text) -> Option<&'a Workload>
        ensures { option_copied result
            ≡ found_by workload_in (serves self.now.network.now self.now.namespace.now self.now.hostname.now)
            (get self.now.addresses.now name.now) }
    {
        let held = self.addresses.get(name)?;
        match &held.content {
            AddressRecord::Workload(workload)
                if serves(self.network, self.namespace, self.hostname, workload) => {
                Some(workload)
            }
            _ => None,
        }
    }
}

impl<'a> Iterator for Endpoints<'a> {
    type Item = Found<'a>;

    ghost next_gives = { YieldsFirstBy found_as endpoints_left };

    ghost remaining = { item_count endpoints_left };

    fn next(&mut self) -> Option<Found<'a>> {
        while let Some(name) = self.next_name() {
            if let Some(workload) = self.endpoint_at(name) {
                return Some(Found { name, workload });
            }
        }
        None
    }
}

/// The names of an index by their bytes.
fn names_in<'a>(names: Option<&'a ByName<()>>) -> Option<Iter<'a, Text, ()>>
    ensures { entries_left result ≡ entries (names_or_none (option_copied names.entry)) }
{
    match names {
        Some(names) => Some(names.iter()),
        None => None,
    }
}

/// The workloads of these records that are of the network and serve the service.
fn endpoints_of<'a>(
    addresses: &'a Indexed<Versioned<AddressRecord>>,
    network: &'a Text,
    namespace: &'a Text,
    hostname: &'a Text,
) -> Endpoints<'a>
    ensures { endpoints_left result
        ≡ filter (λ e. serves network.now namespace.now hostname.now e.1) (filter_map named_workload (entries addresses.now.now)) }
{
    let number = joined_number(namespace.as_slice(), hostname.as_slice());
    let names = names_in(addresses.names_at(number));
    Endpoints {
        addresses: addresses.now(),
        network,
        namespace,
        hostname,
        names,
    }
}

impl Held {
    /// The workloads of this network with the services key `namespace/hostname`, by their resources' names. The key is
    /// compared part by part.
    pub fn endpoints<'a>(&'a self, namespace: &'a Text, hostname: &'a Text) -> Endpoints<'a>
        ensures { endpoints_left result ≡ endpoints self.now namespace.now hostname.now }
    {
        endpoints_of(&self.addresses, &self.network, namespace, hostname)
    }
}
