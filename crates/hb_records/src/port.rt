//! Ports of services.

ghost use Rattle.std.specs.Prelude.{◌≡◌, ◌+◌, ◌^◌, ◌<◌, length};
ghost use Rattle.hb_base.specs.Outcome.{Answers, Merges};
ghost use Rattle.hb_records.specs.Ports.{port_number, port_in, entry_span, entry_in};

use crate::entries::{check_room, low_32};
use crate::fault::RecordFault;
use hb_base::{List, Or, Text};
use hb_message::{Message, add, read_message, read_whole, take_text};
use hb_wire::{Field, FieldValue};
use std::alloc::Global;

/// A port of a service, and the port of a workload to which it leads.
#[derive(Clone, Copy)]
pub struct Port {
    pub service_port: u32,
    pub target_port: u32,
}

/// The ports under which a workload serves a service; the key is `namespace/hostname`.
#[derive(Drop)]
pub struct ServicePorts {
    pub key: Text,
    pub ports: List<Port>,
}

/// A list of ports as far as its fields were read.
#[derive(Drop)]
struct PortList {
    ports: List<Port>,
}

/// An entry of the map of services as far as its fields were read.
#[derive(Drop)]
struct ServiceEntry {
    key: Text,
    value: PortList,
}

impl Message for Port {
    ghost use Rattle.hb_records.specs.Ports.{port_merged};

    type Fault = RecordFault;

    ghost merged = { port_merged };

    fn merge(&mut self, _alloc: Global, field: Field<'_>) -> Result<(), Or<RecordFault>> {
        if let FieldValue::Varint(n) = field.value {
            self.take_number(field.number, n);
        }
        Ok(())
    }
}

impl Port {
    fn take_number(&mut self, number: u32, n: u64)
        ensures { self.new ≡ port_number self.old number n }
    {
        match number {
            1 => self.service_port = low_32(n),
            2 => self.target_port = low_32(n),
            _ => {}
        }
    }
}

/// The port of `bytes`, which stand at place `at`.
///
/// Errors: `Wire` where the bytes are no fields; and `NoMemory`.
#[tactic(auto, unfolding(crate::specs::Ports::port_in))]
pub fn read_port(alloc: Global, at: usize, bytes: &[u8]) -> Result<Port, Or<RecordFault>>
    requires { at + length bytes.now < 2 ^ 64 }
    ensures { Answers result (port_in at bytes.now) }
{
    let mut port = Port {
        service_port: 0,
        target_port: 0,
    };
    read_message(alloc, bytes, at, &mut port)?;
    Ok(port)
}

impl Message for PortList {
    ghost use Rattle.hb_records.specs.Ports.{ports_merged};

    type Fault = RecordFault;

    ghost merged = { ports_merged };

    fn merge(&mut self, alloc: Global, field: Field<'_>) -> Result<(), Or<RecordFault>> {
        match field.value {
            FieldValue::Span(bytes) if field.number == 1 => {
                check_room(1, &self.ports)?;
                add(&mut self.ports, read_port(alloc, field.at, bytes)?)
            }
            _ => Ok(()),
        }
    }
}

impl Message for ServiceEntry {
    ghost use Rattle.hb_records.specs.Ports.{entry_merged};

    type Fault = RecordFault;

    ghost merged = { entry_merged };

    fn merge(&mut self, alloc: Global, field: Field<'_>) -> Result<(), Or<RecordFault>> {
        match field.value {
            FieldValue::Span(bytes) => self.take_span(alloc, field.number, field.at, bytes),
            _ => Ok(()),
        }
    }
}

impl ServiceEntry {
    #[tactic(auto, unfolding(crate::specs::Ports::ports_with))]
    fn take_span(
        &mut self,
        alloc: Global,
        number: u32,
        at: usize,
        bytes: &[u8],
    ) -> Result<(), Or<RecordFault>>
        requires { at + length bytes.now < 2 ^ 64 }
        ensures { Merges (entry_span self.old number at bytes.now) self.new result }
    {
        match number {
            1 => take_text(alloc, 1, bytes, &mut self.key),
            2 => read_message(alloc, bytes, at, &mut self.value),
            _ => Ok(()),
        }
    }
}

/// The entry of the map of services of `bytes`, which stand at place `at` (Protocol Buffers encoding guide, "Maps").
///
/// Errors: the first of `Wire`, `Utf8` and `TooMany` in order of bytes, depth first; and `NoMemory`.
#[tactic(auto, unfolding(crate::specs::Ports::entry_in))]
pub fn read_entry(alloc: Global, at: usize, bytes: &[u8]) -> Result<ServicePorts, Or<RecordFault>>
    requires { at + length bytes.now < 2 ^ 64 }
    ensures { Answers result (entry_in at bytes.now) }
{
    let unread = ServiceEntry {
        key: Text::empty(alloc),
        value: PortList {
            ports: List::new(alloc),
        },
    };
    let entry = read_whole(alloc, bytes, at, unread)?;
    Ok(ServicePorts {
        key: entry.key,
        ports: entry.value.ports,
    })
}
