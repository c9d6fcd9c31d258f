//! Which workload and which service have an address.

ghost use Rattle.std.specs.Prelude.{◌≡◌};
ghost use Rattle.std.specs.List.{list_any};
ghost use Rattle.std.specs.FinMap.{get};
ghost use Rattle.std.specs.Option.{option_copied, option_map};
ghost use Rattle.std.specs.Str.{bytes_eq};
ghost use Rattle.hb_index.specs.Indexed.{AreNamesAt};
ghost use Rattle.hb_held.specs.Numbers.{number_of, address_numbers};
ghost use Rattle.hb_held.specs.Lookup.{ip_eq, has_address, is_address, serves_at};
ghost use Rattle.hb_held.specs.Lookup.{workload_at, known, service_at, found_as, found_service_as, workload_in, service_in, found_by};

use crate::found::{Found, FoundService};
use crate::held::Held;
use crate::numbers::number_of;
use hb_base::{Ip, List, Text};
use hb_index::ByName;
use hb_records::{AddressRecord, NetworkAddress, Service, Workload};

fn is_same_ip(a: Ip, b: Ip) -> bool
    ensures { result ≡ ip_eq a b }
{
    match (a, b) {
        (Ip::V4(a), Ip::V4(b)) => a == b,
        (Ip::V6(a), Ip::V6(b)) => a == b,
        _ => false,
    }
}

fn is_among(addresses: &List<Ip>, ip: Ip) -> bool
    ensures { result ≡ list_any (λ a. ip_eq a ip) addresses.now }
{
    addresses
        .as_slice()
        .iter()
        .any(|address| is_same_ip(*address, ip))
}

/// A workload of the network has the address.
pub(crate) fn has_address(network: &Text, ip: Ip, workload: &Workload) -> bool
    ensures { result ≡ has_address network.now ip workload.now }
{
    workload.network.as_slice() == network.as_slice() && is_among(&workload.addresses, ip)
}

fn is_address(network: &Text, ip: Ip, address: &NetworkAddress) -> bool
    ensures { result ≡ is_address network.now ip address.now }
{
    address.network.as_slice() == network.as_slice() && is_same_ip(address.address, ip)
}

/// One of the service's addresses is this one of the network.
fn serves_at(network: &Text, ip: Ip, service: &Service) -> bool
    ensures { result ≡ serves_at network.now ip service.now }
{
    service
        .addresses
        .as_slice()
        .iter()
        .any(|address| is_address(network, ip, address))
}

impl Held {
    /// The network is the node's own.
    pub fn is_network(&self, network: &Text) -> bool
        ensures { result ≡ bytes_eq network.now self.now.network }
    {
        network.as_slice() == self.network.as_slice()
    }

    /// The names of the records with the address, of any network; `None` where there are none.
    fn names_at(&self, ip: Ip) -> Option<&ByName<()>>
        ensures { AreNamesAt address_numbers self.now.addresses (number_of ip) (option_copied result) }
    {
        self.addresses.names_at(number_of(ip))
    }

    /// The workload under a name, where it is of this network and has the address.
    fn workload_with(&self, ip: Ip, name: &Text) -> Option<&Workload>
        ensures { option_copied result
            ≡ found_by workload_in (has_address self.now.network ip) (get self.now.addresses name.now) }
    {
        let held = self.addresses.now().get(name)?;
        match &held.content {
            AddressRecord::Workload(workload) if has_address(&self.network, ip, workload) => {
                Some(workload)
            }
            _ => None,
        }
    }

    /// The service under a name, where it has the address in this network.
    fn service_with(&self, ip: Ip, name: &Text) -> Option<&Service>
        ensures { option_copied result
            ≡ found_by service_in (serves_at self.now.network ip) (get self.now.addresses name.now) }
    {
        let held = self.addresses.now().get(name)?;
        match &held.content {
            AddressRecord::Service(service) if serves_at(&self.network, ip, service) => {
                Some(service)
            }
            _ => None,
        }
    }

    /// Of the workloads of this network with the address, the one of the smallest resource name, by bytes. `None`
    /// where there is none.
    pub fn workload_at(&self, ip: Ip) -> Option<Found<'_>>
        ensures { option_map found_as result ≡ workload_at self.now ip }
    {
        let names = self.names_at(ip)?;
        let mut rest = names.iter();
        while let Some((name, _)) = rest.next() {
            if let Some(workload) = self.workload_with(ip, name) {
                return Some(Found { name, workload });
            }
        }
        None
    }

    /// The same workload, where its node is this node; the least is taken first, and its node is looked at then.
    /// `None` where there is no workload, or where that one's node is another.
    pub fn known(&self, ip: Ip) -> Option<Found<'_>>
        ensures { option_map found_as result ≡ known self.now ip }
    {
        let found = self.workload_at(ip)?;
        if found.workload.node.as_slice() == self.node.as_slice() {
            Some(found)
        } else {
            None
        }
    }

    /// Of the services that have the address in this network, the one of the smallest resource name, by bytes. `None`
    /// where there is none.
    pub fn service_at(&self, ip: Ip) -> Option<FoundService<'_>>
        ensures { option_map found_service_as result ≡ service_at self.now ip }
    {
        let names = self.names_at(ip)?;
        let mut rest = names.iter();
        while let Some((name, _)) = rest.next() {
            if let Some(service) = self.service_with(ip, name) {
                return Some(FoundService { name, service });
            }
        }
        None
    }
}
