//! Ports, and the ports under which a workload serves a service.

ghost use Rattle.std.specs.Prelude.{◌≡◌, ◌++◌, OnOk};

use crate::fields::{Canonical, put_entries, put_text};
use hb_base::NoMemory;
use hb_records::{Port, ServicePorts};
use hb_wire::{put_bytes, put_number};
use std::alloc::Global;

impl Canonical for Port {
    ghost use Rattle.hb_canonical.specs.Ports.{port_of};

    ghost spelled = { port_of };

    #[tactic(auto, unfolding(crate::specs::Ports::port_of))]
    fn put(&self, alloc: Global, out: &mut Vec<u8>) -> Result<(), NoMemory> {
        put_number(alloc, 1, u64::from(self.service_port), out)?;
        put_number(alloc, 2, u64::from(self.target_port), out)
    }
}

/// An entry of the map of services: an empty key is left out, its value never.
impl Canonical for ServicePorts {
    ghost use Rattle.hb_canonical.specs.Ports.{service_entry_of};

    ghost spelled = { service_entry_of };

    #[tactic(auto, unfolding(crate::specs::Ports::service_entry_of, crate::specs::Ports::ports_of))]
    fn put(&self, alloc: Global, out: &mut Vec<u8>) -> Result<(), NoMemory> {
        put_text(alloc, 1, &self.key, out)?;
        let mut own = Vec::new(alloc);
        put_entries(alloc, 1, &self.ports, &mut own)?;
        put_bytes(alloc, 2, own.as_slice(), out)
    }
}
