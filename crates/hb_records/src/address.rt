//! Address records.

ghost use Rattle.std.specs.Prelude.{◌≡◌, ◌+◌, ◌^◌, ◌<◌, length};
ghost use Rattle.hb_base.specs.Outcome.{Answers, Merges};
ghost use Rattle.hb_records.specs.Address.{address_span, record_or, address_of};

use crate::fault::RecordFault;
use crate::service::Service;
use crate::workload::{Workload, WorkloadParts};
use hb_base::Or;
use hb_message::{Message, read_message};
use hb_wire::{Field, FieldValue};
use std::alloc::Global;

/// What has an address in the mesh.
pub enum AddressRecord {
    Workload(Workload),
    Service(Service),
}

// Never inlined, so that a record that may have to be dropped is still moved as one piece of memory.
impl Drop for AddressRecord {
    #[inline(never)]
    fn drop(self) {
        match self {
            AddressRecord::Workload(_) | AddressRecord::Service(_) => {}
        }
    }
}

/// An address record as far as its fields were read: the workload or the service that occurred last, if one did.
struct Address {
    workload: Option<WorkloadParts>,
    service: Option<Service>,
}

// Never inlined, for the same reason.
impl Drop for Address {
    #[inline(never)]
    fn drop(self) {
        let Address {
            workload: _,
            service: _,
        } = self;
    }
}

impl Message for Address {
    ghost use Rattle.hb_records.specs.Address.{address_merged};

    type Fault = RecordFault;

    ghost merged = { address_merged };

    fn merge(&mut self, alloc: Global, field: Field<'_>) -> Result<(), Or<RecordFault>> {
        match field.value {
            FieldValue::Span(bytes) => self.take_span(alloc, field.number, field.at, bytes),
            _ => Ok(()),
        }
    }
}

impl Address {
    fn take_span(
        &mut self,
        alloc: Global,
        number: u32,
        at: usize,
        bytes: &[u8],
    ) -> Result<(), Or<RecordFault>>
        requires { at + length bytes.now < 2 ^ 64 }
        ensures { Merges (address_span self.old number at bytes.now) self.new result }
    {
        match number {
            1 => self.take_workload(alloc, at, bytes),
            2 => self.take_service(alloc, at, bytes),
            _ => Ok(()),
        }
    }

    #[tactic(auto, unfolding(crate::specs::Workload::workload_with))]
    fn take_workload(
        &mut self,
        alloc: Global,
        at: usize,
        bytes: &[u8],
    ) -> Result<(), Or<RecordFault>>
        requires { at + length bytes.now < 2 ^ 64 }
        ensures { Merges (address_span self.old 1 at bytes.now) self.new result }
    {
        if self.service.is_some() {
            self.service = None;
        }
        if self.workload.is_none() {
            self.workload = Some(WorkloadParts::unread(alloc));
        }
        match &mut self.workload {
            Some(there) => read_message(alloc, bytes, at, there),
            None => unreachable!(),
        }
    }

    #[tactic(auto, unfolding(crate::specs::Service::service_with))]
    fn take_service(
        &mut self,
        alloc: Global,
        at: usize,
        bytes: &[u8],
    ) -> Result<(), Or<RecordFault>>
        requires { at + length bytes.now < 2 ^ 64 }
        ensures { Merges (address_span self.old 2 at bytes.now) self.new result }
    {
        if self.workload.is_some() {
            self.workload = None;
        }
        if self.service.is_none() {
            self.service = Some(Service::unread(alloc));
        }
        match &mut self.service {
            Some(there) => read_message(alloc, bytes, at, there),
            None => unreachable!(),
        }
    }

    /// The record, which has to be one of the two.
    fn whole(self) -> Result<AddressRecord, Or<RecordFault>>
        ensures { Answers result (record_or self.workload self.service) }
    {
        let Address { workload, service } = self;
        if let Some(parts) = workload {
            return Ok(AddressRecord::Workload(parts.workload));
        }
        match service {
            Some(service) => Ok(AddressRecord::Service(service)),
            None => Err(Or::Fault(RecordFault::NoKind { field: 0 })),
        }
    }
}

/// Reads an address record: the message `Address` of Istio's ztunnel, a workload or a service.
///
/// Errors: the first `RecordFault` in order of bytes, depth first, and `NoKind` of field 0 behind all of them, where
/// it is neither; and `NoMemory`.
#[tactic(auto, unfolding(crate::specs::Address::address_of))]
pub fn read_address(alloc: Global, bytes: &[u8]) -> Result<AddressRecord, Or<RecordFault>>
    ensures { Answers result (address_of bytes.now) }
{
    let mut address = Address {
        workload: None,
        service: None,
    };
    read_message(alloc, bytes, 0, &mut address)?;
    address.whole()
}
