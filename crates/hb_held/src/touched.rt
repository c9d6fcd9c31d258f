//! Which addresses the last response touched.

ghost use Rattle.std.specs.Prelude.{◌≡◌, IsTrue};
ghost use Rattle.std.specs.Option.{option_copied};
ghost use Rattle.hb_held.specs.Lookup.{workload_at};
ghost use Rattle.hb_held.specs.Touched.{touched, touched_from, precedes, had_address, had_smaller, stands_for, had_policy};

use crate::held::Held;
use crate::lookup::has_address;
use crate::policies::is_for;
use crate::versioned::Versioned;
use hb_base::{Ip, Text};
use hb_records::{AddressRecord, Authorization, Workload};

/// A name goes before another one, by its bytes, or there is no other one.
fn precedes(name: &Text, other: Option<&Text>) -> bool
    ensures { result ≡ precedes name.now (option_copied other.entry) }
{
    match other {
        Some(other) => name < other,
        None => true,
    }
}

/// A workload of the network and with the address stood there.
fn had_address(network: &Text, ip: Ip, stood: &Option<Versioned<AddressRecord>>) -> bool
    ensures { result ≡ had_address network.now ip stood.now }
{
    match stood {
        Some(stood) => match &stood.content {
            AddressRecord::Workload(workload) => has_address(network, ip, workload),
            AddressRecord::Service(_) => false,
        },
        None => false,
    }
}

/// A policy is there, and is for the workload.
fn stands_for(workload: &Workload, policy: Option<&Versioned<Authorization>>) -> bool
    ensures { result ≡ stands_for workload.now (option_copied policy.entry) }
{
    match policy {
        Some(policy) => is_for(workload, &policy.content),
        None => false,
    }
}

impl Held {
    /// A workload that was changed had the address, under a smaller name than this one.
    fn had_smaller(&self, ip: Ip, least: Option<&Text>) -> bool
        ensures { result ≡ had_smaller self.now ip (option_copied least.entry) }
    {
        let mut rest = self.addresses.past().iter();
        while let Some((name, stood)) = rest.next() {
            if had_address(&self.network, ip, stood) && precedes(name, least) {
                return true;
            }
        }
        false
    }

    /// A policy that was changed is for the workload, or was.
    fn had_policy(&self, workload: &Workload) -> bool
        ensures { result ≡ had_policy self.now workload.now }
    {
        let mut rest = self.policies.past().iter();
        while let Some((name, stood)) = rest.next() {
            if stands_for(workload, stood.as_ref())
                || stands_for(workload, self.policies.now().get(name))
            {
                return true;
            }
        }
        false
    }

    /// The same as `touched`, from what is at the address now and what was changed alone: where neither the workload
    /// there was changed nor one went before it, the same workload was there before.
    fn is_touched(&self, ip: Ip) -> bool
        ensures { result ≡ touched_from self.now ip (workload_at self.now ip) }
    {
        match self.workload_at(ip) {
            Some(found) => {
                self.addresses.past().contains(found.name)
                    || self.had_smaller(ip, Some(found.name))
                    || (found.workload.node.as_slice() == self.node.as_slice()
                        && self.had_policy(found.workload))
            }
            None => self.had_smaller(ip, None),
        }
    }

    /// The last response touched what is at the address: the workload that `workload_at` gave before it or gives after
    /// it, or a policy for the workload known there before or after, has a name that the response changed. Takes
    /// no memory.
    pub fn touched(&self, ip: Ip) -> bool
        requires settled { IsTrue self.now.settled }
        ensures { result ≡ touched self.now ip }
    {
        self.is_touched(ip)
    }
}
