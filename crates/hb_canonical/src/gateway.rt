//! Addresses of a network, hostnames and gateways.

ghost use Rattle.std.specs.Prelude.{◌≡◌, ◌++◌, ◌<◌, ◌≤◌, ◌^◌, OnOk};
ghost use Rattle.hb_canonical.specs.Gateway.{hostname_of, gateway_field};

use crate::fields::{Canonical, put_text, put_value};
use hb_base::{NoMemory, Text};
use hb_records::{GatewayAddress, NetworkAddress, Waypoint};
use hb_wire::{put_bytes, put_number};
use std::alloc::Global;

impl Canonical for NetworkAddress {
    ghost use Rattle.hb_canonical.specs.Gateway.{network_of};

    ghost spelled = { network_of };

    #[tactic(auto, unfolding(crate::specs::Gateway::network_of))]
    fn put(&self, alloc: Global, out: &mut Vec<u8>) -> Result<(), NoMemory> {
        put_text(alloc, 1, &self.network, out)?;
        put_value(alloc, 2, &self.address, out)
    }
}

/// A hostname and its namespace.
#[tactic(auto, unfolding(crate::specs::Gateway::hostname_of))]
fn put_hostname(
    alloc: Global,
    namespace: &Text,
    hostname: &Text,
    out: &mut Vec<u8>,
) -> Result<(), NoMemory>
    ensures { OnOk result (out.new.items ≡ out.old.items ++ hostname_of namespace.now hostname.now) }
{
    put_text(alloc, 1, namespace, out)?;
    put_text(alloc, 2, hostname, out)
}

impl Canonical for Waypoint {
    ghost use Rattle.hb_canonical.specs.Gateway.{waypoint_of};

    ghost spelled = { waypoint_of };

    #[tactic(auto, unfolding(crate::specs::Gateway::waypoint_of))]
    fn put(&self, alloc: Global, out: &mut Vec<u8>) -> Result<(), NoMemory> {
        match self {
            Waypoint::Hostname {
                namespace,
                hostname,
            } => {
                let mut own = Vec::new(alloc);
                put_hostname(alloc, namespace, hostname, &mut own)?;
                put_bytes(alloc, 1, own.as_slice(), out)
            }
            Waypoint::Address(there) => put_value(alloc, 2, there, out),
        }
    }
}

impl Canonical for GatewayAddress {
    ghost use Rattle.hb_canonical.specs.Gateway.{gateway_of};

    ghost spelled = { gateway_of };

    #[tactic(auto, unfolding(crate::specs::Gateway::gateway_of))]
    fn put(&self, alloc: Global, out: &mut Vec<u8>) -> Result<(), NoMemory> {
        self.to.put(alloc, out)?;
        put_number(alloc, 3, u64::from(self.hbone_mtls_port), out)
    }
}

/// Appends a gateway as a field, where there is one.
///
/// Errors: `NoMemory`; what was appended to `out` isn't said then.
pub fn put_gateway(
    alloc: Global,
    number: u32,
    gateway: &Option<GatewayAddress>,
    out: &mut Vec<u8>,
) -> Result<(), NoMemory>
    requires some { 1 ≤ number }
    requires small { number < 2 ^ 29 }
    ensures { OnOk result (out.new.items ≡ out.old.items ++ gateway_field number gateway.now) }
{
    match gateway {
        Some(gateway) => put_value(alloc, number, gateway, out),
        None => Ok(()),
    }
}
