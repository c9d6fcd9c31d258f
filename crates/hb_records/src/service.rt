//! Services.

ghost use Rattle.std.specs.Prelude.{◌≡◌, ◌+◌, ◌^◌, ◌<◌, length};
ghost use Rattle.hb_base.specs.Outcome.{Merges};
ghost use Rattle.hb_records.specs.Service.{no_service, service_span};

use crate::entries::check_room;
use crate::fault::RecordFault;
use crate::gateway::{GatewayAddress, read_gateway};
use crate::network_address::{NetworkAddress, NetworkParts, read_network};
use crate::port::{Port, read_port};
use hb_base::{List, Or, Text};
use hb_message::{Message, add, take_text};
use hb_wire::{Field, FieldValue};
use std::alloc::Global;

/// A service of the mesh.
#[derive(Drop)]
pub struct Service {
    pub name: Text,
    pub namespace: Text,
    pub hostname: Text,
    pub addresses: List<NetworkAddress>,
    pub ports: List<Port>,
    pub waypoint: Option<GatewayAddress>,
}

impl Message for Service {
    ghost use Rattle.hb_records.specs.Service.{service_merged};

    type Fault = RecordFault;

    ghost merged = { service_merged };

    fn merge(&mut self, alloc: Global, field: Field<'_>) -> Result<(), Or<RecordFault>> {
        match field.value {
            FieldValue::Span(bytes) => self.take_span(alloc, field.number, field.at, bytes),
            _ => Ok(()),
        }
    }
}

impl Service {
    /// The service of which no field was read.
    pub fn unread(alloc: Global) -> Service
        ensures { result ≡ no_service }
    {
        Service {
            name: Text::empty(alloc),
            namespace: Text::empty(alloc),
            hostname: Text::empty(alloc),
            addresses: List::new(alloc),
            ports: List::new(alloc),
            waypoint: None,
        }
    }

    fn take_span(
        &mut self,
        alloc: Global,
        number: u32,
        at: usize,
        bytes: &[u8],
    ) -> Result<(), Or<RecordFault>>
        requires { at + length bytes.now < 2 ^ 64 }
        ensures { Merges (service_span self.old number at bytes.now) self.new result }
    {
        match number {
            1 => take_text(alloc, 1, bytes, &mut self.name),
            2 => take_text(alloc, 2, bytes, &mut self.namespace),
            3 => take_text(alloc, 3, bytes, &mut self.hostname),
            4 => {
                check_room(4, &self.addresses)?;
                let unread = NetworkParts::unread(alloc);
                add(&mut self.addresses, read_network(alloc, at, bytes, unread)?)
            }
            5 => {
                check_room(5, &self.ports)?;
                add(&mut self.ports, read_port(alloc, at, bytes)?)
            }
            7 => {
                let there = self.waypoint.take();
                self.waypoint = Some(read_gateway(alloc, 7, at, bytes, there)?);
                Ok(())
            }
            _ => Ok(()),
        }
    }
}
