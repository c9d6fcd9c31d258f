//! The numbers by which records are found.

ghost use Rattle.std.specs.Prelude.{◌≡◌, ◌++◌, map, IfOk, OnOk};
ghost use Rattle.hb_held.specs.Numbers.{number_of, with_byte, with_bytes, text_number, service_number};
ghost use Rattle.hb_held.specs.Endpoints.{joined};
ghost use Rattle.hb_held.specs.Policies.{policy_key};

use crate::versioned::Versioned;
use hb_base::{Ip, List, NoMemory};
use hb_index::Numbered;
use hb_records::{AddressRecord, Authorization, NetworkAddress, Reach, ServicePorts, Workload};
use std::alloc::Global;

const MULTIPLIER: u64 = 1_099_511_628_211;

const START: u64 = 14_695_981_039_346_656_037;

pub(crate) fn number_of(ip: Ip) -> u128
    ensures { result ≡ number_of ip }
{
    match ip {
        Ip::V4(n) => u128::from(n),
        Ip::V6(n) => n,
    }
}

fn with_byte(number: u64, byte: u8) -> u64
    ensures { result ≡ with_byte number byte }
{
    number
        .wrapping_mul(MULTIPLIER)
        .wrapping_add(u64::from(byte))
}

/// The number of a text, after the number of what goes before it.
fn with_bytes(number: u64, text: &[u8]) -> u64
    ensures { result ≡ with_bytes number text.now }
{
    let mut sum = number;
    for byte in text {
        sum = with_byte(sum, *byte);
    }
    sum
}

pub(crate) fn text_number(text: &[u8]) -> u128
    ensures { result ≡ text_number text.now }
{
    u128::from(with_bytes(START, text))
}

/// The number of a namespace and a name, joined by a slash; they aren't joined for it.
pub(crate) fn joined_number(namespace: &[u8], name: &[u8]) -> u128
    ensures { result ≡ text_number (joined namespace.now name.now) }
{
    let first = with_bytes(START, namespace);
    let front = with_bytes(first, b"/");
    let whole = with_bytes(front, name);
    u128::from(whole)
}

/// The number of the key by which workloads ask for a policy.
fn policy_number(policy: &Authorization) -> u128
    ensures { result ≡ text_number (policy_key policy.now) }
{
    let namespace = policy.namespace.as_slice();
    match policy.scope {
        Reach::Global => text_number(b""),
        Reach::Namespace => text_number(namespace),
        Reach::Selector => joined_number(namespace, policy.name.as_slice()),
    }
}

fn numbers_of_ips(alloc: Global, ips: &[Ip]) -> Result<List<u128>, NoMemory>
    ensures { IfOk result (λ l. l ≡ map number_of ips.now) }
{
    let mut numbers = List::new(alloc);
    for ip in ips {
        numbers.push(number_of(*ip))?;
    }
    Ok(numbers)
}

fn numbers_of_addresses(alloc: Global, addresses: &[NetworkAddress]) -> Result<List<u128>, NoMemory>
    ensures { IfOk result (λ l. l ≡ map (λ a. number_of a.address) addresses.now) }
{
    let mut numbers = List::new(alloc);
    for address in addresses {
        numbers.push(number_of(address.address))?;
    }
    Ok(numbers)
}

/// Adds the numbers of the keys of these services.
fn add_services(numbers: &mut List<u128>, services: &[ServicePorts]) -> Result<(), NoMemory>
    ensures { OnOk result (numbers.new ≡ numbers.old ++ map service_number services.now) }
{
    for service in services {
        numbers.push(text_number(service.key.as_slice()))?;
    }
    Ok(())
}

fn numbers_of_workload(alloc: Global, workload: &Workload) -> Result<List<u128>, NoMemory>
    ensures { IfOk result (λ l. l ≡ map number_of workload.now.addresses ++ map service_number workload.now.services) }
{
    let mut numbers = numbers_of_ips(alloc, workload.addresses.as_slice())?;
    add_services(&mut numbers, workload.services.as_slice())?;
    Ok(numbers)
}

impl Numbered for Versioned<AddressRecord> {
    ghost use Rattle.hb_held.specs.Numbers.{address_numbers};

    ghost numbers = { address_numbers };

    fn list_numbers(&self, alloc: Global) -> Result<List<u128>, NoMemory> {
        match &self.content {
            AddressRecord::Workload(workload) => numbers_of_workload(alloc, workload),
            AddressRecord::Service(service) => {
                numbers_of_addresses(alloc, service.addresses.as_slice())
            }
        }
    }
}

impl Numbered for Versioned<Authorization> {
    ghost use Rattle.hb_held.specs.Numbers.{policy_numbers};

    ghost numbers = { policy_numbers };

    fn list_numbers(&self, alloc: Global) -> Result<List<u128>, NoMemory> {
        let mut numbers = List::new(alloc);
        numbers.push(policy_number(&self.content))?;
        Ok(numbers)
    }
}
