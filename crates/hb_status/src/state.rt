//! The state of a run, as JSON (RFC 8259), with a line for each link.

use crate::counts::{Counter, Counts};
use crate::seen::{Link, Part, Tunnel};
use hb_base::{Identity, Ip, NoMemory, Peer, Target, put_ip};
use hb_quote::str_of;
use hb_report::add_target;
use std::alloc::Global;
use std::collections::BTreeMap;
use std::str::from_utf8;

/// Adds a member: a number under each word.
fn add_numbers(text: &mut String, name: &str, counters: &[Counter]) -> Result<(), NoMemory> {
    write!(text, ",\"{name}\":{{")?;
    let mut is_first = true;
    for counter in counters {
        let word = counter.word;
        let times = counter.times();
        let comma = if is_first { "" } else { "," };
        is_first = false;
        write!(text, "{comma}\"{word}\":{times}")?;
    }
    text.push_str("}")
}

/// What stands in front of the links.
///
/// Errors: `NoMemory`.
pub(crate) fn state_head(alloc: Global, counts: &Counts) -> Result<String, NoMemory> {
    let synced = counts.is_synced();
    let mut text = format!(in alloc; "{{\"synced\":{synced}")?;
    add_numbers(&mut text, "held", counts.held.as_slice())?;
    add_numbers(&mut text, "updates", counts.updates.as_slice())?;
    add_numbers(&mut text, "refused", counts.refused.as_slice())?;
    text.push_str(",\"links\":[\n")?;
    Ok(text)
}

/// What stands behind them.
///
/// Errors: `NoMemory`.
pub(crate) fn state_tail(text: &mut String) -> Result<(), NoMemory> {
    text.push_str("\n]}\n")
}

/// Adds a target as a string, or null.
fn add_target_or_null(text: &mut String, target: Option<Target>) -> Result<(), NoMemory> {
    let Some(target) = target else {
        return text.push_str("null");
    };
    text.push_str("\"")?;
    add_target(target, text)?;
    text.push_str("\"")
}

/// Adds an address as a string.
fn add_address(alloc: Global, text: &mut String, ip: Ip) -> Result<(), NoMemory> {
    let mut address = Vec::new(alloc);
    put_ip(alloc, ip, &mut address)?;
    let address = from_utf8(address.as_slice()).unwrap_or("");
    write!(text, "\"{address}\"")
}

/// Adds an identity as a string, or null. Its parts have no octet that a string of JSON spells another way.
fn add_identity(text: &mut String, identity: &Option<Identity>) -> Result<(), NoMemory> {
    let Some(identity) = identity else {
        return text.push_str("null");
    };
    text.push_str("\"spiffe://")?;
    text.push_str(str_of(&identity.trust_domain))?;
    text.push_str("/ns/")?;
    text.push_str(str_of(&identity.namespace))?;
    text.push_str("/sa/")?;
    text.push_str(str_of(&identity.service_account))?;
    text.push_str("\"")
}

/// Adds who was let in last: address and identity, or null.
fn add_peer(alloc: Global, text: &mut String, peer: &Option<Peer>) -> Result<(), NoMemory> {
    let Some(peer) = peer else {
        return text.push_str(",\"peer\":null,\"identity\":null");
    };
    text.push_str(",\"peer\":")?;
    add_address(alloc, text, peer.ip)?;
    text.push_str(",\"identity\":")?;
    add_identity(text, &peer.identity)
}

/// Adds the octets of a tunnel that has a link of its own.
fn add_octets(
    text: &mut String,
    tunnel: &Tunnel,
    links: &BTreeMap<u64, Link>,
) -> Result<(), NoMemory> {
    let Some(number) = tunnel.own else {
        return text.push_str(",\"link\":null,\"up\":null,\"down\":null");
    };
    let Some(own) = links.get(&number) else {
        return text.push_str(",\"link\":null,\"up\":null,\"down\":null");
    };
    let up = own.wrote;
    let down = own.read;
    write!(text, ",\"link\":{number},\"up\":{up},\"down\":{down}")
}

fn add_tunnels(
    text: &mut String,
    tunnels: &[Tunnel],
    links: &BTreeMap<u64, Link>,
) -> Result<(), NoMemory> {
    text.push_str(",\"tunnels\":[")?;
    let mut is_first = true;
    for tunnel in tunnels {
        let comma = if is_first { "" } else { "," };
        is_first = false;
        let stream = tunnel.stream;
        write!(text, "{comma}{{\"stream\":{stream},\"target\":")?;
        add_target_or_null(text, tunnel.target)?;
        let open = tunnel.open;
        write!(text, ",\"open\":{open}")?;
        add_octets(text, tunnel, links)?;
        text.push_str("}")?;
    }
    text.push_str("]")
}

/// Adds a link of this number.
///
/// Errors: `NoMemory`.
pub(crate) fn add_link(
    alloc: Global,
    text: &mut String,
    number: u64,
    link: &Link,
    links: &BTreeMap<u64, Link>,
) -> Result<(), NoMemory> {
    let word = link.part.word();
    let read = link.read;
    let wrote = link.wrote;
    write!(
        text,
        "{{\"link\":{number},\"kind\":\"{word}\",\"read\":{read},\"wrote\":{wrote}"
    )?;
    match link.part {
        Part::At(_) => {
            add_peer(alloc, text, &link.peer)?;
            add_tunnels(text, link.tunnels.as_slice(), links)?;
        }
        Part::To(to, _) => {
            text.push_str(",\"to\":")?;
            add_target_or_null(text, Some(to))?;
        }
    }
    text.push_str("}")
}
