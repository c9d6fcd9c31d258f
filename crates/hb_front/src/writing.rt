//! The header that is written.

ghost use Rattle.std.specs.Prelude.{◌≡◌, ◌≤◌, ◌↔◌, ◌++◌, IsTrue, length, is_ok, if◌then◌else◌, IfOk, IfSome, OnOk};
ghost use Rattle.hb_front.specs.Header.{body};
ghost use Rattle.hb_front.specs.Tlvs.{identity_kind, tlv_text};
ghost use Rattle.hb_front.specs.Written.{family_for as family_of_both, octets_in, identity_text as text_of};
ghost use Rattle.hb_front.specs.Written.{IsSent, header_of, front_text, lent};

use crate::family::Family;
use crate::front::{SIGNATURE, VERSION};
use crate::identity::IDENTITY;
use hb_base::{Identity, Ip, NoMemory, Target};
use std::alloc::Global;

/// The octets before an IPv4 address that is mapped into IPv6 (RFC 4291 section 2.5.5.2).
const MAPPED_PREFIX: [u8; 12] = [0, 0, 0, 0, 0, 0, 0, 0, 0, 0, 255, 255];

/// The family of both addresses: IPv4 where both are.
fn family_for(source: Ip, destination: Ip) -> Family
    ensures { result ≡ family_of_both source destination }
{
    match (source, destination) {
        (Ip::V4(_), Ip::V4(_)) => Family::Inet,
        _ => Family::Inet6,
    }
}

/// Appends the octets of an address.
fn put_octets(family: Family, ip: Ip, out: &mut Vec<u8>) -> Result<(), NoMemory>
    ensures { OnOk result (out.new.items ≡ out.old.items ++ octets_in family ip) }
{
    match ip {
        Ip::V6(n) => out.extend_from_slice(&n.to_be_bytes()),
        Ip::V4(n) => {
            if let Family::Inet6 = family {
                out.extend_from_slice(&MAPPED_PREFIX)?;
            }
            out.extend_from_slice(&n.to_be_bytes())
        }
    }
}

/// The text of an identity.
fn identity_text(alloc: Global, identity: &Identity) -> Result<Vec<u8>, NoMemory>
    ensures { IfOk result (λ text. text.items ≡ text_of identity.now) }
{
    let mut text = Vec::from_slice(alloc, b"spiffe://")?;
    text.extend_from_slice(identity.trust_domain.as_slice())?;
    text.extend_from_slice(b"/ns/")?;
    text.extend_from_slice(identity.namespace.as_slice())?;
    text.extend_from_slice(b"/sa/")?;
    text.extend_from_slice(identity.service_account.as_slice())?;
    Ok(text)
}

/// Appends the type-length-value of an identity.
fn put_identity(alloc: Global, identity: &Identity, out: &mut Vec<u8>) -> Result<(), NoMemory>
    requires { IsSent identity.now }
    ensures { OnOk result (out.new.items
        ≡ out.old.items ++ tlv_text (record { kind = identity_kind; value = text_of identity.now })) }
{
    let text = identity_text(alloc, identity)?;
    out.push(IDENTITY)?;
    out.extend_from_slice(&(text.len() as u16).to_be_bytes())?;
    out.extend_from_slice(text.as_slice())
}

/// What stands behind the length.
fn body_of(
    alloc: Global,
    family: Family,
    source: Target,
    destination: Target,
    identity: Option<&Identity>,
) -> Result<Vec<u8>, NoMemory>
    requires sent { IfSome identity (λ i. IsSent i.now) }
    requires family { family ≡ family_of_both source.ip destination.ip }
    ensures { IfOk result (λ bytes. bytes.items ≡ body (header_of source destination (lent identity.entry))) }
{
    let mut bytes = Vec::new(alloc);
    put_octets(family, source.ip, &mut bytes)?;
    put_octets(family, destination.ip, &mut bytes)?;
    bytes.extend_from_slice(&source.port.to_be_bytes())?;
    bytes.extend_from_slice(&destination.port.to_be_bytes())?;
    if let Some(identity) = identity {
        put_identity(alloc, identity, &mut bytes)?;
    }
    Ok(bytes)
}

/// The bytes of the header.
fn front_bytes(
    alloc: Global,
    source: Target,
    destination: Target,
    identity: Option<&Identity>,
) -> Result<Vec<u8>, NoMemory>
    requires { IfSome identity (λ i. IsSent i.now) }
    ensures { IfOk result (λ bytes. bytes.items ≡ front_text source destination (lent identity.entry)) }
{
    let family = family_for(source.ip, destination.ip);
    let body = body_of(alloc, family, source, destination, identity)?;
    let mut bytes = Vec::from_slice(alloc, &SIGNATURE)?;
    bytes.push(VERSION)?;
    bytes.push(family.byte())?;
    bytes.extend_from_slice(&(body.len() as u16).to_be_bytes())?;
    bytes.extend_from_slice(body.as_slice())?;
    Ok(bytes)
}

/// The greatest text of an identity that is written, without `spiffe://`, `/ns/` and `/sa/`.
const MAX_NAMES: usize = 4000 - 17;

/// Whether an identity may be written: its three parts are names, and its text has at most 4,000 bytes.
pub fn may_be_sent(identity: &Identity) -> bool
    ensures { IsTrue result ↔ IsSent identity.now }
{
    identity.is_well_formed() && has_short_text(identity)
}

/// Whether the text has at most 4,000 bytes.
fn has_short_text(identity: &Identity) -> bool
    ensures { IsTrue result ↔ (length (text_of identity.now) ≤ 4000) }
{
    let trust_domain = identity.trust_domain.as_slice().len();
    let namespace = identity.namespace.as_slice().len();
    let service_account = identity.service_account.as_slice().len();
    trust_domain <= MAX_NAMES
        && namespace <= MAX_NAMES - trust_domain
        && service_account <= MAX_NAMES - trust_domain - namespace
}

/// Appends the header of a connection (PROXY protocol, version 2, section 2.2): TCP over IPv4 where both addresses
/// are of IPv4, else over IPv6 with an IPv4 address mapped; and the identity, where there is one, in the
/// type-length-value e0. The identity has to pass `may_be_sent`.
///
/// Errors: `NoMemory`, and then `out` is unchanged.
pub fn put_front(
    alloc: Global,
    source: Target,
    destination: Target,
    identity: Option<&Identity>,
    out: &mut Vec<u8>,
) -> Result<(), NoMemory>
    requires { IfSome identity (λ i. IsSent i.now) }
    ensures { out.new.items ≡ (if is_ok result
        then out.old.items ++ front_text source destination (lent identity.entry) else out.old.items) }
{
    let bytes = front_bytes(alloc, source, destination, identity)?;
    out.extend_from_slice(bytes.as_slice())
}
