//! An address with a port, and its text.

ghost use Rattle.std.specs.Prelude.{◌≡◌, ◌++◌, IfOk, is_ok, if◌then◌else◌};
ghost use Rattle.std.specs.String.{string_bytes};
ghost use Rattle.hb_base.specs.Parts.{cut_first as cut_at_first};
ghost use Rattle.hb_base.specs.TargetText.{port_of, target_with, bracketed_target, target_of, target_text};

use crate::ip::{Ip, read_v4, read_v6, text_of};
use crate::or::NoMemory;
use crate::parts::{cut_first, cut_last};
use std::alloc::Global;
use thiserror::Error;

/// An address with a TCP port.
#[derive(Clone, Copy)]
pub struct Target {
    pub ip: Ip,
    pub port: u16,
}

/// Why a text isn't a target. They are looked for in this order.
#[derive(Clone, Copy, Debug, Error)]
pub enum BadTarget {
    #[error("no port")]
    NoPort,
    #[error("not an address")]
    BadIp,
    #[error("not a port")]
    BadPort,
}

/// A port: one to five decimal digits of value 1 to 65,535. Leading zeros are allowed.
fn port(text: &[u8]) -> Option<u16>
    ensures { result ≡ port_of text.now }
{
    if text.is_empty() || text.len() > 5 {
        return None;
    }
    let mut value: u32 = 0;
    for b in text {
        if !b.is_ascii_digit() {
            return None;
        }
        value = value * 10 + u32::from(*b - b'0');
    }
    if value == 0 || value > 65535 {
        return None;
    }
    Some(value as u16)
}

/// A target of an address and the text of its port.
fn target_with(ip: Option<Ip>, port_text: &[u8]) -> Result<Target, BadTarget>
    ensures { result ≡ target_with ip (port_of port_text.now) }
{
    let ip = ip.ok_or(BadTarget::BadIp)?;
    let port = port(port_text).ok_or(BadTarget::BadPort)?;
    Ok(Target { ip, port })
}

/// Reads what follows an opening bracket.
fn bracketed_target(inner: &[u8]) -> Result<Target, BadTarget>
    ensures { result ≡ bracketed_target (cut_at_first 93 inner.now) }
{
    let (address, rest) = cut_first(inner, b']').ok_or(BadTarget::NoPort)?;
    let port = rest.strip_prefix(b":").ok_or(BadTarget::NoPort)?;
    target_with(read_v6(address), port)
}

/// Reads a target, `IPv4:PORT` or `[IPv6]:PORT`. The text is cut at its last colon; a text that begins with a bracket
/// is cut where the bracket first closes, and a colon has to follow.
///
/// Errors, the first that applies: `NoPort` where there is no such cut, `BadIp` where the address isn't IPv4 text, or
/// IPv6 text in brackets, and `BadPort` where the port isn't one to five decimal digits of value 1 to 65,535.
#[tactic(auto, unfolding(crate::specs::TargetText::target_of))]
pub fn read_target(b: &[u8]) -> Result<Target, BadTarget>
    ensures { result ≡ target_of b.now }
{
    if let Some(inner) = b.strip_prefix(b"[") {
        return bracketed_target(inner);
    }
    let (address, port) = cut_last(b, b':').ok_or(BadTarget::NoPort)?;
    target_with(read_v4(address), port)
}

/// The text of a target.
#[tactic(auto, unfolding(crate::specs::TargetText::target_text))]
fn target_string(alloc: Global, target: Target) -> Result<String, NoMemory>
    ensures { IfOk result (λ text. string_bytes text ≡ target_text target) }
{
    let ip = text_of(alloc, target.ip)?;
    let port = target.port;
    match target.ip {
        Ip::V4(_) => format!(in alloc; "{ip}:{port}"),
        Ip::V6(_) => format!(in alloc; "[{ip}]:{port}"),
    }
}

/// Writes a target behind the bytes of `out`, an IPv6 address by RFC 5952 section 4 in brackets.
///
/// Errors: `NoMemory`, and then `out` is unchanged.
pub fn put_target(alloc: Global, target: Target, out: &mut Vec<u8>) -> Result<(), NoMemory>
    ensures { out.new.items ≡ (if is_ok result then out.old.items ++ target_text target else out.old.items) }
{
    let text = target_string(alloc, target)?;
    out.extend_from_slice(text.as_bytes())
}
