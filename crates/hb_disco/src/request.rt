//! Delta discovery requests.

ghost use Rattle.std.specs.Prelude.{◌≡◌, ◌++◌, ◌≤◌, ◌<◌, ◌^◌, [], map, IfOk, OnOk, OnErr};
ghost use Rattle.std.specs.List.{flat_map};
ghost use Rattle.std.specs.Option.{option_copied};
ghost use Rattle.hb_disco.specs.Request.{text_of, node_of, with_versions, entry_of, versions_of, status_of, detail_of};
ghost use Rattle.hb_disco.specs.Request.{first_of, answer_of};

use crate::kind::Kind;
use hb_base::{List, NoMemory, Text};
use hb_wire::{put_bytes, put_number};
use std::alloc::Global;
use std::collections::BTreeMap;

/// A resource that is held: its name and its version.
#[derive(Drop)]
pub struct NameVersion {
    pub name: Text,
    pub version: Text,
}

/// INVALID_ARGUMENT (gRPC, "Status codes and their use in gRPC").
const INVALID_ARGUMENT: u64 = 3;

/// Appends a string as a field; nothing where it is empty.
fn put_text(alloc: Global, number: u32, text: &[u8], out: &mut Vec<u8>) -> Result<(), NoMemory>
    requires some { 1 ≤ number }
    requires small { number < 2 ^ 29 }
    ensures { OnOk result (out.new.items ≡ out.old.items ++ text_of number text.now) }
{
    if text.is_empty() {
        return Ok(());
    }
    put_bytes(alloc, number, text, out)
}

fn node(alloc: Global, id: &[u8]) -> Result<Vec<u8>, NoMemory>
    ensures { IfOk result (λ node. node.items ≡ node_of id.now) }
{
    let mut node = Vec::new(alloc);
    put_text(alloc, 1, id, &mut node)?;
    Ok(node)
}

/// The versions by the bytes of their names; a later equal name replaces.
fn by_name<'a>(
    alloc: Global,
    versions: &'a [NameVersion],
) -> Result<BTreeMap<&'a [u8], &'a [u8]>, NoMemory>
    ensures { IfOk result (λ m. map (λ e. (e.0.now, e.1.now)) m.entries ≡ with_versions [] versions.now) }
{
    let mut held = BTreeMap::new(alloc);
    for version in versions {
        held.insert(version.name.as_slice(), version.version.as_slice())?;
    }
    Ok(held)
}

/// An entry of the map of versions.
fn entry(alloc: Global, name: &[u8], version: &[u8]) -> Result<Vec<u8>, NoMemory>
    ensures { IfOk result (λ entry. entry.items ≡ entry_of (name.now, version.now)) }
{
    let mut entry = Vec::new(alloc);
    put_text(alloc, 1, name, &mut entry)?;
    put_bytes(alloc, 2, version, &mut entry)?;
    Ok(entry)
}

fn put_versions(alloc: Global, versions: &[NameVersion], out: &mut Vec<u8>) -> Result<(), NoMemory>
    ensures { OnOk result (out.new.items ≡ out.old.items ++ versions_of versions.now) }
{
    let held = by_name(alloc, versions)?;
    for (name, version) in &held {
        let entry = entry(alloc, name, version)?;
        put_bytes(alloc, 5, entry.as_slice(), out)?;
    }
    Ok(())
}

/// The first request of a kind.
fn first(
    alloc: Global,
    id: &[u8],
    kind: Kind,
    versions: &[NameVersion],
) -> Result<Vec<u8>, NoMemory>
    ensures { IfOk result (λ request. request.items ≡ first_of id.now kind versions.now) }
{
    let mut request = Vec::new(alloc);
    let node = node(alloc, id)?;
    put_bytes(alloc, 1, node.as_slice(), &mut request)?;
    put_bytes(alloc, 2, kind.type_url(), &mut request)?;
    put_versions(alloc, versions, &mut request)?;
    Ok(request)
}

/// Why a response is refused: a name of it.
fn status(alloc: Global, name: &[u8]) -> Result<Vec<u8>, NoMemory>
    ensures { IfOk result (λ status. status.items ≡ status_of name.now) }
{
    let mut status = Vec::new(alloc);
    put_number(alloc, 1, INVALID_ARGUMENT, &mut status)?;
    put_text(alloc, 2, name, &mut status)?;
    Ok(status)
}

fn put_detail(alloc: Global, refused: Option<&Text>, out: &mut Vec<u8>) -> Result<(), NoMemory>
    ensures { OnOk result (out.new.items ≡ out.old.items ++ detail_of (option_copied refused.entry)) }
{
    match refused {
        Some(name) => {
            let status = status(alloc, name.as_slice())?;
            put_bytes(alloc, 7, status.as_slice(), out)
        }
        None => Ok(()),
    }
}

/// The answer to a response.
fn answer(
    alloc: Global,
    kind: Kind,
    nonce: &[u8],
    refused: Option<&Text>,
) -> Result<Vec<u8>, NoMemory>
    ensures { IfOk result (λ request. request.items ≡ answer_of kind nonce.now (option_copied refused.entry)) }
{
    let mut request = Vec::new(alloc);
    put_bytes(alloc, 2, kind.type_url(), &mut request)?;
    put_text(alloc, 6, nonce, &mut request)?;
    put_detail(alloc, refused, &mut request)?;
    Ok(request)
}

/// Appends the first request for resources of a kind by the node of this id, which subscribes to all of them (Envoy
/// xDS protocol, "How the client specifies what resources to return"): it tells the versions that are held, by the
/// bytes of their names, one a name, of which the last counts.
///
/// Errors: `NoMemory`, and then nothing is appended.
pub fn put_first(
    alloc: Global,
    id: &Text,
    kind: Kind,
    versions: &List<NameVersion>,
    out: &mut Vec<u8>,
) -> Result<(), NoMemory>
    ensures ok { OnOk result (out.new.items ≡ out.old.items ++ first_of id.now kind versions.now) }
    ensures err { OnErr result (out.new.items ≡ out.old.items) }
{
    let request = first(alloc, id.as_slice(), kind, versions.as_slice())?;
    out.extend_from_slice(request.as_slice())
}

/// Appends the answer to the response of this nonce: it accepts the response, or with a refused name rejects it and
/// tells that name (Envoy xDS protocol, "ACK/NACK and resource type instance version").
///
/// Errors: `NoMemory`, and then nothing is appended.
pub fn put_answer(
    alloc: Global,
    kind: Kind,
    nonce: &Text,
    refused: Option<&Text>,
    out: &mut Vec<u8>,
) -> Result<(), NoMemory>
    ensures ok { OnOk result (out.new.items ≡ out.old.items ++ answer_of kind nonce.now (option_copied refused.entry)) }
    ensures err { OnErr result (out.new.items ≡ out.old.items) }
{
    let request = answer(alloc, kind, nonce.as_slice(), refused)?;
    out.extend_from_slice(request.as_slice())
}
