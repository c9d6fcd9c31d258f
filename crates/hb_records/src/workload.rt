//! Workloads.

ghost use Rattle.std.specs.Prelude.{◌≡◌, ◌+◌, ◌^◌, ◌<◌, length};
ghost use Rattle.hb_base.specs.Outcome.{Merges};
ghost use Rattle.hb_records.specs.Workload.{no_workload, no_parts, workload_text, workload_span, workload_number};
ghost use Rattle.hb_records.specs.Workload.{service_entry, parts_span};

use crate::entries::{MOST_ENTRIES, check_room, low_32, read_octets, too_many};
use crate::fault::RecordFault;
use crate::gateway::{GatewayAddress, read_gateway};
use crate::port::{ServicePorts, read_entry};
use crate::services::put_entry;
use hb_base::{Ip, List, Or, Text};
use hb_message::{Message, add, read_text, take_text};
use hb_wire::{Field, FieldValue};
use std::alloc::Global;

/// A workload of the mesh. `authorization_policies` are the names `namespace/name` of the policies that
/// it asks for.
#[derive(Drop)]
pub struct Workload {
    pub name: Text,
    pub namespace: Text,
    pub addresses: List<Ip>,
    pub network: Text,
    /// It takes HBONE (tunnel protocol 1).
    pub hbone: bool,
    pub trust_domain: Text,
    pub service_account: Text,
    pub waypoint: Option<GatewayAddress>,
    pub node: Text,
    pub authorization_policies: List<Text>,
    pub healthy: bool,
    pub uid: Text,
    pub hostname: Text,
    /// The services that it serves, by their keys, each once.
    pub services: List<ServicePorts>,
}

/// A workload as far as its fields were read, and how many entries of its map of services came.
#[derive(Drop)]
pub struct WorkloadParts {
    pub workload: Workload,
    pub entries: usize,
}

impl Message for WorkloadParts {
    ghost use Rattle.hb_records.specs.Workload.{parts_merged};

    type Fault = RecordFault;

    ghost merged = { parts_merged };

    fn merge(&mut self, alloc: Global, field: Field<'_>) -> Result<(), Or<RecordFault>> {
        match field.value {
            FieldValue::Span(bytes) => self.take_span(alloc, field.number, field.at, bytes),
            FieldValue::Varint(n) => {
                self.workload.take_number(field.number, n);
                Ok(())
            }
            _ => Ok(()),
        }
    }
}

impl WorkloadParts {
    /// No field was read.
    pub fn unread(alloc: Global) -> WorkloadParts
        ensures { result ≡ no_parts }
    {
        WorkloadParts {
            workload: Workload::unread(alloc),
            entries: 0,
        }
    }

    fn take_span(
        &mut self,
        alloc: Global,
        number: u32,
        at: usize,
        bytes: &[u8],
    ) -> Result<(), Or<RecordFault>>
        requires { at + length bytes.now < 2 ^ 64 }
        ensures { Merges (parts_span self.old number at bytes.now) self.new result }
    {
        if number == 22 {
            return self.take_service(alloc, at, bytes);
        }
        self.workload.take_span(alloc, number, at, bytes)
    }

    fn take_service(
        &mut self,
        alloc: Global,
        at: usize,
        bytes: &[u8],
    ) -> Result<(), Or<RecordFault>>
        requires { at + length bytes.now < 2 ^ 64 }
        ensures { Merges (service_entry self.old at bytes.now) self.new result }
    {
        if self.entries >= MOST_ENTRIES {
            return too_many(22);
        }
        let entry = read_entry(alloc, at, bytes)?;
        put_entry(&mut self.workload.services, entry)?;
        self.entries += 1;
        Ok(())
    }
}

impl Workload {
    /// The workload of which no field was read.
    fn unread(alloc: Global) -> Workload
        ensures { result ≡ no_workload }
    {
        Workload {
            name: Text::empty(alloc),
            namespace: Text::empty(alloc),
            addresses: List::new(alloc),
            network: Text::empty(alloc),
            hbone: false,
            trust_domain: Text::empty(alloc),
            service_account: Text::empty(alloc),
            waypoint: None,
            node: Text::empty(alloc),
            authorization_policies: List::new(alloc),
            healthy: true,
            uid: Text::empty(alloc),
            hostname: Text::empty(alloc),
            services: List::new(alloc),
        }
    }

    fn take_span(
        &mut self,
        alloc: Global,
        number: u32,
        at: usize,
        bytes: &[u8],
    ) -> Result<(), Or<RecordFault>>
        requires { at + length bytes.now < 2 ^ 64 }
        ensures { Merges (workload_span self.old number at bytes.now) self.new result }
    {
        match number {
            3 => {
                check_room(3, &self.addresses)?;
                add(&mut self.addresses, read_octets(3, bytes)?)
            }
            8 => {
                let there = self.waypoint.take();
                self.waypoint = Some(read_gateway(alloc, 8, at, bytes, there)?);
                Ok(())
            }
            16 => {
                check_room(16, &self.authorization_policies)?;
                add(
                    &mut self.authorization_policies,
                    read_text(alloc, 16, bytes)?,
                )
            }
            _ => self.take_text(alloc, number, bytes),
        }
    }

    fn take_text(&mut self, alloc: Global, number: u32, bytes: &[u8]) -> Result<(), Or<RecordFault>>
        ensures { Merges (workload_text self.old number bytes.now) self.new result }
    {
        match number {
            1 => take_text(alloc, 1, bytes, &mut self.name),
            2 => take_text(alloc, 2, bytes, &mut self.namespace),
            4 => take_text(alloc, 4, bytes, &mut self.network),
            6 => take_text(alloc, 6, bytes, &mut self.trust_domain),
            7 => take_text(alloc, 7, bytes, &mut self.service_account),
            9 => take_text(alloc, 9, bytes, &mut self.node),
            20 => take_text(alloc, 20, bytes, &mut self.uid),
            21 => take_text(alloc, 21, bytes, &mut self.hostname),
            _ => Ok(()),
        }
    }

    fn take_number(&mut self, number: u32, n: u64)
        ensures { self.new ≡ workload_number self.old number n }
    {
        match number {
            5 => self.hbone = low_32(n) == 1,
            17 => self.healthy = low_32(n) == 0,
            _ => {}
        }
    }
}
