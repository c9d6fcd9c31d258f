//! Address records.

ghost use Rattle.std.specs.Prelude.{◌≡◌, ◌++◌, ◌<◌, ℕ, List as list, Ok, OnOk, OnErr};
ghost use Rattle.std.specs.List.{All};
ghost use Rattle.hb_wire.specs.Spelling.{IsOctet};
ghost use Rattle.hb_records.specs.Address.{address_of};
ghost use Rattle.hb_wire.specs.Writing.{number_of};
ghost use Rattle.hb_canonical.specs.Address.{canonical_address, protocol_number, status_number};
ghost use Rattle.hb_canonical.specs.Fields.{text_field, entries_of, octets_of};
ghost use Rattle.hb_canonical.specs.Gateway.{gateway_field};
ghost use Rattle.hb_canonical.specs.Ports.{service_entry_of};

use crate::fields::{Canonical, put_entries, put_text, put_value};
use crate::gateway::put_gateway;
use hb_base::NoMemory;
use hb_records::{AddressRecord, Service, Workload};
use hb_wire::put_number;
use std::alloc::Global;

/// The tunnel protocol's number: HBONE is 1.
fn protocol_number(hbone: bool) -> u64
    ensures { result ≡ protocol_number hbone }
{
    if hbone { 1 } else { 0 }
}

/// The status's number: healthy is 0.
fn status_number(healthy: bool) -> u64
    ensures { result ≡ status_number healthy }
{
    if healthy { 0 } else { 1 }
}

impl Canonical for Workload {
    ghost use Rattle.hb_canonical.specs.Address.{workload_of};

    ghost spelled = { workload_of };

    #[tactic(auto, unfolding(crate::specs::Address::workload_of))]
    fn put(&self, alloc: Global, out: &mut Vec<u8>) -> Result<(), NoMemory> {
        put_place(alloc, self, out)?;
        put_identity(alloc, self, out)?;
        put_duties(alloc, self, out)
    }
}

/// Fields 1 to 4: what a workload is called, and its addresses.
fn put_place(alloc: Global, w: &Workload, out: &mut Vec<u8>) -> Result<(), NoMemory>
    ensures { OnOk result (out.new.items ≡ out.old.items ++ (text_field 1 w.now.name ++ (text_field 2 w.now.namespace
        ++ (entries_of 3 octets_of w.now.addresses ++ text_field 4 w.now.network)))) }
{
    put_text(alloc, 1, &w.name, out)?;
    put_text(alloc, 2, &w.namespace, out)?;
    put_entries(alloc, 3, &w.addresses, out)?;
    put_text(alloc, 4, &w.network, out)
}

/// Fields 5 to 9: by what a workload is reached, and as whom.
fn put_identity(alloc: Global, w: &Workload, out: &mut Vec<u8>) -> Result<(), NoMemory>
    ensures { OnOk result (out.new.items ≡ out.old.items ++ (number_of 5 (protocol_number w.now.hbone)
        ++ (text_field 6 w.now.trust_domain ++ (text_field 7 w.now.service_account
        ++ (gateway_field 8 w.now.waypoint ++ text_field 9 w.now.node))))) }
{
    put_number(alloc, 5, protocol_number(w.hbone), out)?;
    put_text(alloc, 6, &w.trust_domain, out)?;
    put_text(alloc, 7, &w.service_account, out)?;
    put_gateway(alloc, 8, &w.waypoint, out)?;
    put_text(alloc, 9, &w.node, out)
}

/// Fields 16 to 22: the policies of a workload, its state, and what it serves.
fn put_duties(alloc: Global, w: &Workload, out: &mut Vec<u8>) -> Result<(), NoMemory>
    ensures { OnOk result (out.new.items ≡ out.old.items ++ (entries_of 16 (λ name. name) w.now.authorization_policies
        ++ (number_of 17 (status_number w.now.healthy) ++ (text_field 20 w.now.uid ++ (text_field 21 w.now.hostname
        ++ entries_of 22 service_entry_of w.now.services))))) }
{
    put_entries(alloc, 16, &w.authorization_policies, out)?;
    put_number(alloc, 17, status_number(w.healthy), out)?;
    put_text(alloc, 20, &w.uid, out)?;
    put_text(alloc, 21, &w.hostname, out)?;
    put_entries(alloc, 22, &w.services, out)
}

impl Canonical for Service {
    ghost use Rattle.hb_canonical.specs.Address.{service_of};

    ghost spelled = { service_of };

    #[tactic(auto, unfolding(crate::specs::Address::service_of))]
    fn put(&self, alloc: Global, out: &mut Vec<u8>) -> Result<(), NoMemory> {
        put_text(alloc, 1, &self.name, out)?;
        put_text(alloc, 2, &self.namespace, out)?;
        put_text(alloc, 3, &self.hostname, out)?;
        put_entries(alloc, 4, &self.addresses, out)?;
        put_entries(alloc, 5, &self.ports, out)?;
        put_gateway(alloc, 7, &self.waypoint, out)
    }
}

/// Which of the two it is, also where that has no bytes.
impl Canonical for AddressRecord {
    ghost use Rattle.hb_canonical.specs.Address.{canonical_address};

    ghost spelled = { canonical_address };

    #[tactic(auto, unfolding(crate::specs::Address::canonical_address))]
    fn put(&self, alloc: Global, out: &mut Vec<u8>) -> Result<(), NoMemory> {
        match self {
            AddressRecord::Workload(workload) => put_value(alloc, 1, workload, out),
            AddressRecord::Service(service) => put_value(alloc, 2, service, out),
        }
    }
}

/// Appends an address record in its canonical spelling, from which a record that reading gave is read again (the
/// message `Address` of Istio's ztunnel).
///
/// Errors: `NoMemory`, and then `out` is unchanged.
pub fn put_address(alloc: Global, r: &AddressRecord, out: &mut Vec<u8>) -> Result<(), NoMemory>
    ensures ok { OnOk result (out.new.items ≡ out.old.items ++ canonical_address r.now) }
    ensures err { OnErr result (out.new.items ≡ out.old.items) }
    ensures reads_back { OnOk result ((b : list ℕ) → All IsOctet b → address_of b ≡ Ok r.now
        → address_of (canonical_address r.now) ≡ Ok r.now) }
{
    let mut own = Vec::new(alloc);
    r.put(alloc, &mut own)?;
    out.extend_from_slice(own.as_slice())
}
