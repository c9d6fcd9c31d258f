//! The map of services, kept by the bytes of its keys.

ghost use Rattle.std.specs.Prelude.{◌≡◌, ◌≤◌, ◌<◌, ◌++◌, false, length, take, drop, Ok, slice_get, IfSome};
ghost use Rattle.hb_base.specs.Outcome.{Merges};
ghost use Rattle.hb_records.specs.Ports.{is_before, is_of, with_entry};

use crate::fault::RecordFault;
use crate::port::ServicePorts;
use hb_base::{List, Or};
use std::cmp::Ordering;

/// The key of the one stands before that of the other.
fn is_before(a: &ServicePorts, b: &ServicePorts) -> bool
    ensures { result ≡ is_before a.now b.now }
{
    match a.key.as_slice().cmp(b.key.as_slice()) {
        Ordering::Less => true,
        Ordering::Equal | Ordering::Greater => false,
    }
}

/// How many services in front have keys that stand before the entry's.
fn place_of(services: &[ServicePorts], entry: &ServicePorts) -> usize
    ensures within { result ≤ length services.now }
    ensures place { with_entry services.now entry.now ≡ take result services.now ++ with_entry (drop result services.now) entry.now }
    ensures stop { IfSome (slice_get services.now result) (λ x. is_before x entry.now ≡ false) }
{
    let mut place = 0;
    while place < services.len() && is_before(&services[place], entry) {
        place += 1;
    }
    place
}

/// The service at this place has the entry's key.
fn is_of(services: &[ServicePorts], place: usize, entry: &ServicePorts) -> bool
    ensures { result ≡ is_of (slice_get services.now place) entry.now }
{
    match services.get(place) {
        Some(service) => service.key.as_slice() == entry.key.as_slice(),
        None => false,
    }
}

/// Puts an entry at its place by key, or in place of that of an equal key.
///
/// Errors: `NoMemory`, and then what the map has isn't said.
#[tactic(auto, using(crate::proofs::Places::replaced, crate::proofs::Places::inserted))]
pub fn put_entry(
    services: &mut List<ServicePorts>,
    entry: ServicePorts,
) -> Result<(), Or<RecordFault>>
    ensures { Merges (Ok (with_entry services.old entry)) services.new result }
{
    let place = place_of(services.as_slice(), &entry);
    if is_of(services.as_slice(), place, &entry) {
        services.replace(place, entry);
    } else {
        services.insert(place, entry)?;
    }
    Ok(())
}
