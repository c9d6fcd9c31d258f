//! Addresses of a network.

ghost use Rattle.std.specs.Prelude.{◌≡◌, ◌+◌, ◌^◌, ◌<◌, length};
ghost use Rattle.hb_base.specs.Outcome.{Answers, Merges};
ghost use Rattle.hb_records.specs.Network.{no_network, network_span, network_with, address_or};

use crate::entries::read_octets;
use crate::fault::RecordFault;
use hb_base::{Ip, Or, Text};
use hb_message::{Message, read_whole, take_text};
use hb_wire::{Field, FieldValue};
use std::alloc::Global;

/// An address, and the network that it belongs to.
#[derive(Drop)]
pub struct NetworkAddress {
    pub network: Text,
    pub address: Ip,
}

/// A network's address as far as its fields were read.
#[derive(Drop)]
pub struct NetworkParts {
    pub network: Text,
    pub address: Option<Ip>,
}

impl Message for NetworkParts {
    ghost use Rattle.hb_records.specs.Network.{network_merged};

    type Fault = RecordFault;

    ghost merged = { network_merged };

    fn merge(&mut self, alloc: Global, field: Field<'_>) -> Result<(), Or<RecordFault>> {
        match field.value {
            FieldValue::Span(bytes) => self.take_span(alloc, field.number, bytes),
            _ => Ok(()),
        }
    }
}

impl NetworkParts {
    /// No field was read.
    pub fn unread(alloc: Global) -> NetworkParts
        ensures { result ≡ no_network }
    {
        NetworkParts {
            network: Text::empty(alloc),
            address: None,
        }
    }

    fn take_span(&mut self, alloc: Global, number: u32, bytes: &[u8]) -> Result<(), Or<RecordFault>>
        ensures { Merges (network_span self.old number bytes.now) self.new result }
    {
        match number {
            1 => take_text(alloc, 1, bytes, &mut self.network),
            2 => {
                self.address = Some(read_octets(2, bytes)?);
                Ok(())
            }
            _ => Ok(()),
        }
    }

    /// The address, which has to be there.
    fn whole(self) -> Result<NetworkAddress, Or<RecordFault>>
        ensures { Answers result (address_or self.network self.address) }
    {
        match self.address {
            Some(address) => Ok(NetworkAddress {
                network: self.network,
                address,
            }),
            None => Err(Or::Fault(RecordFault::BadIp { field: 2 })),
        }
    }
}

/// What `bytes`, which stand at place `at`, make of the parts that are there.
///
/// Errors: the first of `Wire`, `Utf8` and `BadIp` in order of bytes, and `BadIp` of field 2 behind them, where there
/// is no address; and `NoMemory`.
#[tactic(auto, unfolding(crate::specs::Network::network_with))]
pub fn read_network(
    alloc: Global,
    at: usize,
    bytes: &[u8],
    there: NetworkParts,
) -> Result<NetworkAddress, Or<RecordFault>>
    requires { at + length bytes.now < 2 ^ 64 }
    ensures { Answers result (network_with there at bytes.now) }
{
    read_whole(alloc, bytes, at, there)?.whole()
}
