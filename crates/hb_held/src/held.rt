//! The resources held.

ghost use Rattle.std.specs.Prelude.{◌≡◌, ◌&&◌, IfOk, IfErr, OnOk, OnErr, IsTrue, Ok, Err, if◌then◌else◌};
ghost use Rattle.std.specs.FinMap.{get, insert};
ghost use Rattle.hb_base.specs.Outcome.{Fails, Merges};
ghost use Rattle.hb_held.specs.Held.{nothing_held, count, holds, fits, begun, without, with_came};
ghost use Rattle.hb_held.specs.Outcome.{refusing, with_record, with_resource};
ghost use Rattle.hb_held.specs.declared.outcome.RefusedWhy.TheVariants.{Full};
ghost use Rattle.hb_index.specs.Kept.{note};

use crate::doors::OwnDoors;
use crate::outcome::RefusedWhy;
use crate::versioned::Versioned;
use hb_base::{NoMemory, Or, Text};
use hb_disco::{Kind, Resource};
use hb_index::{Indexed, Numbered};
use hb_records::{AddressRecord, Authorization, RecordFault, read_address, read_authorization};
use std::alloc::Global;
use std::marker::Model;

/// The resources that a node of a network holds, by kind and name. Contracts see the node's network and name, where its own doors
/// listen, a finite map for each kind, whether a response of each kind was applied, and what the last one changed.
#[derive(Drop)]
pub struct Held {
    pub(crate) network: Text,
    pub(crate) node: Text,
    pub(crate) doors: OwnDoors,
    pub(crate) addresses: Indexed<Versioned<AddressRecord>>,
    pub(crate) policies: Indexed<Versioned<Authorization>>,
    addresses_came: bool,
    policies_came: bool,
    settled: bool,
}

impl Model for Held {
    ghost use Rattle.hb_held.specs.Held.{Resources, resources_code};
    ghost use Rattle.hb_held.specs.contracts.doors.OwnDoors.{the_row as doors_row};
    ghost use Rattle.hb_held.specs.contracts.versioned.Versioned.{the_row as versioned_row};
    ghost use Rattle.hb_records.specs.contracts.address.AddressRecord.{the_row as address_row};
    ghost use Rattle.hb_records.specs.contracts.authorization.Authorization.{the_row as policy_row};

    ghost Value = { Resources };

    ghost coded = { resources_code doors_row.coded (versioned_row address_row).coded (versioned_row policy_row).coded };

    ghost view = { λ h. record {
      network = h.network;
      node = h.node;
      doors = h.doors;
      addresses = h.addresses.now;
      policies = h.policies.now;
      addresses_came = h.addresses_came;
      policies_came = h.policies_came;
      past_addresses = h.addresses.past;
      past_policies = h.policies.past;
      settled = h.settled;
    } };
}

/// The most resources that are held, of both kinds together.
const MOST_HELD: usize = 65_536;

/// A resource is refused for the fault of its record.
fn refusing(why: Or<RecordFault>) -> Or<RefusedWhy>
    ensures { result ≡ refusing why }
{
    match why {
        Or::Fault(fault) => Or::Fault(RefusedWhy::Record(fault)),
        Or::NoMemory => Or::NoMemory,
    }
}

/// Puts the record of a resource, with its version, under the resource's name, where there is room.
fn put_versioned<T: Drop>(
    alloc: Global,
    held: &mut Indexed<Versioned<T>>,
    fits: bool,
    resource: &Resource,
    content: T,
) -> Result<(), Or<RefusedWhy>>
where
    Versioned<T>: Numbered,
    ensures now { OnOk result (held.new.now
        ≡ insert held.old.now resource.now.name (record { version = resource.now.version; content = content })) }
    ensures past { OnOk result (held.new.past ≡ note held.old.past resource.now.name (get held.old.now resource.now.name)) }
    ensures room { OnOk result (IsTrue fits) }
    ensures refused { IfErr result (Fails (if fits then Ok fits else Err Full)) }
    ensures err { OnErr result (held.new ≡ held.old) }
{
    if !fits {
        return Err(Or::Fault(RefusedWhy::Full));
    }
    let version = resource.version.copy(alloc)?;
    held.put(alloc, &resource.name, Versioned { version, content })?;
    Ok(())
}

impl Held {
    /// Nothing is held, at this node of this network, with these doors.
    pub fn new(alloc: Global, network: Text, node: Text, doors: OwnDoors) -> Held
        ensures { result ≡ nothing_held network node doors }
    {
        Held {
            network,
            node,
            doors,
            addresses: Indexed::new(alloc),
            policies: Indexed::new(alloc),
            addresses_came: false,
            policies_came: false,
            settled: true,
        }
    }

    /// How many resources of both kinds are held.
    pub fn count(&self) -> usize
        ensures { result ≡ count self.now }
    {
        self.addresses.now().len() + self.policies.now().len()
    }

    /// A resource of this kind and name is held.
    fn holds(&self, kind: Kind, name: &Text) -> bool
        ensures { result ≡ holds self.now kind name.now }
    {
        match kind {
            Kind::Address => self.addresses.now().contains(name),
            Kind::Authorization => self.policies.now().contains(name),
        }
    }

    /// A resource of this kind and name may be held.
    fn fits(&self, kind: Kind, name: &Text) -> bool
        ensures { result ≡ fits self.now kind name.now }
    {
        self.count() < MOST_HELD || self.holds(kind, name)
    }

    /// A response begins to be applied.
    pub(crate) fn begin(&mut self, alloc: Global)
        ensures { self.new ≡ begun self.old }
    {
        self.addresses.begin(alloc);
        self.policies.begin(alloc);
        self.settled = false;
    }

    /// Takes a name of this kind away, and tells whether it was held.
    pub(crate) fn remove(
        &mut self,
        alloc: Global,
        kind: Kind,
        name: &Text,
    ) -> Result<bool, NoMemory>
        ensures held { IfOk result (λ held. held ≡ holds self.old kind name.now) }
        ensures rest { OnOk result (self.new ≡ without self.old kind name.now) }
        ensures err { OnErr result (self.new ≡ self.old) }
    {
        match kind {
            Kind::Address => self.addresses.remove(alloc, name),
            Kind::Authorization => self.policies.remove(alloc, name),
        }
    }

    /// Reads the record of a resource of this kind, and puts it under the resource's name.
    fn put_record(
        &mut self,
        alloc: Global,
        kind: Kind,
        resource: &Resource,
    ) -> Result<(), Or<RefusedWhy>>
        ensures value { Merges (with_record self.old kind resource.now) self.new result }
        ensures err { OnErr result (self.new ≡ self.old) }
    {
        let bytes = resource.value.as_slice();
        let fits = self.fits(kind, &resource.name);
        match kind {
            Kind::Address => match read_address(alloc, bytes) {
                Ok(content) => put_versioned(alloc, &mut self.addresses, fits, resource, content),
                Err(why) => Err(refusing(why)),
            },
            Kind::Authorization => match read_authorization(alloc, bytes) {
                Ok(content) => put_versioned(alloc, &mut self.policies, fits, resource, content),
                Err(why) => Err(refusing(why)),
            },
        }
    }

    /// Takes a resource of a response of this kind.
    #[tactic(auto, unfolding(crate::specs::Outcome::with_resource))]
    pub(crate) fn put(
        &mut self,
        alloc: Global,
        kind: Kind,
        resource: &Resource,
    ) -> Result<(), Or<RefusedWhy>>
        ensures value { Merges (with_resource self.old kind resource.now) self.new result }
        ensures err { OnErr result (self.new ≡ self.old) }
    {
        if resource.name.as_slice().is_empty() {
            return Err(Or::Fault(RefusedWhy::NoName));
        }
        if resource.type_url.as_slice() != kind.type_url() {
            return Err(Or::Fault(RefusedWhy::WrongType));
        }
        self.put_record(alloc, kind, resource)
    }

    /// A response of this kind was applied whole.
    pub(crate) fn mark(&mut self, kind: Kind)
        ensures { self.new ≡ with_came self.old kind }
    {
        self.settled = true;
        match kind {
            Kind::Address => self.addresses_came = true,
            Kind::Authorization => self.policies_came = true,
        }
    }

    /// The last `apply` answered `Ok`, or there was none.
    pub fn is_settled(&self) -> bool
        ensures { result ≡ self.now.settled }
    {
        self.settled
    }

    /// The node's own doors.
    pub fn doors(&self) -> OwnDoors
        ensures { result ≡ self.now.doors }
    {
        self.doors
    }

    /// A response of each kind was applied.
    pub fn synced(&self) -> bool
        ensures { result ≡ (self.now.addresses_came && self.now.policies_came) }
    {
        self.addresses_came && self.policies_came
    }
}
