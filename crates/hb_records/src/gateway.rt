//! Gateways that stand in front of workloads and services.

ghost use Rattle.std.specs.Prelude.{◌≡◌, ◌+◌, ◌^◌, ◌<◌, length};
ghost use Rattle.hb_base.specs.Outcome.{Answers, Merges};
ghost use Rattle.hb_records.specs.Gateway.{hostname_span, hostname_there, network_there, hostname_with};
ghost use Rattle.hb_records.specs.Gateway.{gateway_span, gateway_number, gateway_there, to_or, gateway_with};

use crate::entries::low_32;
use crate::fault::RecordFault;
use crate::network_address::{NetworkAddress, NetworkParts, read_network};
use hb_base::{Or, Text};
use hb_message::{Message, read_whole, take_text};
use hb_wire::{Field, FieldValue};
use std::alloc::Global;

/// A waypoint: where connections go first, and its port for HBONE.
#[derive(Drop)]
pub struct GatewayAddress {
    pub to: Waypoint,
    pub hbone_mtls_port: u32,
}

/// By what a waypoint is found.
#[derive(Drop)]
pub enum Waypoint {
    Hostname { namespace: Text, hostname: Text },
    Address(NetworkAddress),
}

/// A hostname and its namespace as far as their fields were read.
#[derive(Drop)]
struct NamespacedHostname {
    namespace: Text,
    hostname: Text,
}

impl Message for NamespacedHostname {
    ghost use Rattle.hb_records.specs.Gateway.{hostname_merged};

    type Fault = RecordFault;

    ghost merged = { hostname_merged };

    fn merge(&mut self, alloc: Global, field: Field<'_>) -> Result<(), Or<RecordFault>> {
        match field.value {
            FieldValue::Span(bytes) => self.take_span(alloc, field.number, bytes),
            _ => Ok(()),
        }
    }
}

impl NamespacedHostname {
    fn take_span(&mut self, alloc: Global, number: u32, bytes: &[u8]) -> Result<(), Or<RecordFault>>
        ensures { Merges (hostname_span self.old number bytes.now) self.new result }
    {
        match number {
            1 => take_text(alloc, 1, bytes, &mut self.namespace),
            2 => take_text(alloc, 2, bytes, &mut self.hostname),
            _ => Ok(()),
        }
    }

    /// What one more occurrence merges into.
    fn there(alloc: Global, to: Option<Waypoint>) -> NamespacedHostname
        ensures { result ≡ hostname_there to }
    {
        match to {
            Some(
                Waypoint::Hostname {
                    namespace,
                    hostname,
                },
            ) => NamespacedHostname {
                namespace,
                hostname,
            },
            _ => NamespacedHostname {
                namespace: Text::empty(alloc),
                hostname: Text::empty(alloc),
            },
        }
    }
}

/// What one more occurrence of an address merges into.
fn network_there(alloc: Global, to: Option<Waypoint>) -> NetworkParts
    ensures { result ≡ network_there to }
{
    match to {
        Some(Waypoint::Address(there)) => NetworkParts {
            network: there.network,
            address: Some(there.address),
        },
        _ => NetworkParts::unread(alloc),
    }
}

/// What `bytes`, which stand at place `at`, make of the hostname that is there.
#[tactic(auto, unfolding(crate::specs::Gateway::hostname_with))]
fn read_hostname(
    alloc: Global,
    at: usize,
    bytes: &[u8],
    there: NamespacedHostname,
) -> Result<NamespacedHostname, Or<RecordFault>>
    requires { at + length bytes.now < 2 ^ 64 }
    ensures { Answers result (hostname_with there at bytes.now) }
{
    read_whole(alloc, bytes, at, there)
}

/// A gateway as far as its fields were read.
#[derive(Drop)]
struct GatewayParts {
    to: Option<Waypoint>,
    hbone_mtls_port: u32,
}

impl Message for GatewayParts {
    ghost use Rattle.hb_records.specs.Gateway.{gateway_merged};

    type Fault = RecordFault;

    ghost merged = { gateway_merged };

    fn merge(&mut self, alloc: Global, field: Field<'_>) -> Result<(), Or<RecordFault>> {
        match field.value {
            FieldValue::Span(bytes) => self.take_span(alloc, field.number, field.at, bytes),
            FieldValue::Varint(n) => {
                self.take_number(field.number, n);
                Ok(())
            }
            _ => Ok(()),
        }
    }
}

impl GatewayParts {
    fn take_span(
        &mut self,
        alloc: Global,
        number: u32,
        at: usize,
        bytes: &[u8],
    ) -> Result<(), Or<RecordFault>>
        requires { at + length bytes.now < 2 ^ 64 }
        ensures { Merges (gateway_span self.old number at bytes.now) self.new result }
    {
        match number {
            1 => self.take_hostname(alloc, at, bytes),
            2 => self.take_address(alloc, at, bytes),
            _ => Ok(()),
        }
    }

    fn take_hostname(
        &mut self,
        alloc: Global,
        at: usize,
        bytes: &[u8],
    ) -> Result<(), Or<RecordFault>>
        requires { at + length bytes.now < 2 ^ 64 }
        ensures { Merges (gateway_span self.old 1 at bytes.now) self.new result }
    {
        let there = NamespacedHostname::there(alloc, self.to.take());
        let read = read_hostname(alloc, at, bytes, there)?;
        self.to = Some(Waypoint::Hostname {
            namespace: read.namespace,
            hostname: read.hostname,
        });
        Ok(())
    }

    fn take_address(
        &mut self,
        alloc: Global,
        at: usize,
        bytes: &[u8],
    ) -> Result<(), Or<RecordFault>>
        requires { at + length bytes.now < 2 ^ 64 }
        ensures { Merges (gateway_span self.old 2 at bytes.now) self.new result }
    {
        let there = network_there(alloc, self.to.take());
        let read = read_network(alloc, at, bytes, there)?;
        self.to = Some(Waypoint::Address(read));
        Ok(())
    }

    fn take_number(&mut self, number: u32, n: u64)
        ensures { self.new ≡ gateway_number self.old number n }
    {
        if number == 3 {
            self.hbone_mtls_port = low_32(n);
        }
    }

    /// What one more occurrence merges into.
    fn there(gateway: Option<GatewayAddress>) -> GatewayParts
        ensures { result ≡ gateway_there gateway }
    {
        match gateway {
            Some(gateway) => GatewayParts {
                to: Some(gateway.to),
                hbone_mtls_port: gateway.hbone_mtls_port,
            },
            None => GatewayParts {
                to: None,
                hbone_mtls_port: 0,
            },
        }
    }

    /// The gateway, which has to say to where.
    fn whole(self, field: u32) -> Result<GatewayAddress, Or<RecordFault>>
        ensures { Answers result (to_or field self.hbone_mtls_port self.to) }
    {
        let hbone_mtls_port = self.hbone_mtls_port;
        match self.to {
            Some(to) => Ok(GatewayAddress {
                to,
                hbone_mtls_port,
            }),
            None => Err(Or::Fault(RecordFault::NoKind { field })),
        }
    }
}

/// What `bytes`, which stand at place `at` under the field number `field`, make of the gateway that is there.
///
/// Errors: the first `RecordFault` in order of bytes, depth first, and `NoKind` of `field` behind them, where it has
/// neither a hostname nor an address; and `NoMemory`.
#[tactic(auto, unfolding(crate::specs::Gateway::gateway_with))]
pub fn read_gateway(
    alloc: Global,
    field: u32,
    at: usize,
    bytes: &[u8],
    there: Option<GatewayAddress>,
) -> Result<GatewayAddress, Or<RecordFault>>
    requires { at + length bytes.now < 2 ^ 64 }
    ensures { Answers result (gateway_with field there at bytes.now) }
{
    read_whole(alloc, bytes, at, GatewayParts::there(there))?.whole(field)
}
