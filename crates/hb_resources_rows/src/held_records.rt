//! Records in words. A test ends where memory is wanting or a word is none.

use crate::hex::push_digits;
use std::alloc::Global;
use std::process::Abort;

pub fn put(rt: &impl Abort, out: &mut Vec<u8>, bytes: &[u8]) {
    out.extend_from_slice(bytes).expect(rt, "memory");
}

/// A field of fewer than 128 bytes behind its tag.
fn put_field(rt: &impl Abort, out: &mut Vec<u8>, tag: &[u8], bytes: &[u8]) {
    put(rt, out, tag);
    let length = u8::try_from(bytes.len()).ok().expect(rt, "a length");
    assert!(rt; length < 128, "a short field");
    out.push(length).expect(rt, "memory");
    put(rt, out, bytes);
}

/// Octets in hexadecimal digits.
fn put_octets(rt: &impl Abort, alloc: Global, out: &mut Vec<u8>, tag: &[u8], digits: &str) {
    let mut bytes = Vec::new(alloc);
    push_digits(rt, &mut bytes, digits);
    put_field(rt, out, tag, bytes.as_slice());
}

/// An address of a network, as `net/0a000007`.
fn put_network(rt: &impl Abort, alloc: Global, out: &mut Vec<u8>, text: &str) {
    let (network, digits) = text.split_once("/").unwrap_or((text, ""));
    let mut inner = Vec::new(alloc);
    put_field(rt, &mut inner, b"\x0a", network.as_bytes());
    put_octets(rt, alloc, &mut inner, b"\x12", digits);
    put_field(rt, out, b"\x22", inner.as_slice());
}

/// An entry of a map that has this key and no value.
fn put_key(rt: &impl Abort, alloc: Global, out: &mut Vec<u8>, key: &str) {
    let mut inner = Vec::new(alloc);
    put_field(rt, &mut inner, b"\x0a", key.as_bytes());
    put_field(rt, out, b"\xb2\x01", inner.as_slice());
}

/// So many rules without any clause.
fn put_rules(rt: &impl Abort, out: &mut Vec<u8>, count: &str) {
    let count = count.parse::<u32>().ok().expect(rt, "a number");
    for _ in 0..count {
        put(rt, out, b"\x2a\x00");
    }
}

fn put_part(rt: &impl Abort, alloc: Global, out: &mut Vec<u8>, part: &str) {
    let (key, value) = part.split_once("=").unwrap_or((part, ""));
    match key {
        "name" => put_field(rt, out, b"\x0a", value.as_bytes()),
        "ns" => put_field(rt, out, b"\x12", value.as_bytes()),
        "ip" => put_octets(rt, alloc, out, b"\x1a", value),
        "net" => put_field(rt, out, b"\x22", value.as_bytes()),
        "at" => put_network(rt, alloc, out, value),
        "node" => put_field(rt, out, b"\x4a", value.as_bytes()),
        "asks" => put_field(rt, out, b"\x82\x01", value.as_bytes()),
        "serves" => put_key(rt, alloc, out, value),
        "namespace" => put(rt, out, b"\x18\x01"),
        "selector" => put(rt, out, b"\x18\x02"),
        "rules" => put_rules(rt, out, value),
        "hex" => push_digits(rt, out, value),
        _ => assert!(rt; false, "no part: {part}"),
    }
}

/// The bytes of a record: `w` a workload, `s` a service, `p` a policy, each with its parts behind commas.
pub fn bytes_of(rt: &impl Abort, alloc: Global, text: &str) -> Vec<u8> {
    let (kind, parts) = text.split_once(",").unwrap_or((text, ""));
    let mut inner = Vec::new(alloc);
    for part in parts.split(',') {
        if !part.is_empty() {
            put_part(rt, alloc, &mut inner, part);
        }
    }
    let mut bytes = Vec::new(alloc);
    match kind {
        "w" => put_field(rt, &mut bytes, b"\x0a", inner.as_slice()),
        "s" => put_field(rt, &mut bytes, b"\x12", inner.as_slice()),
        _ => put(rt, &mut bytes, inner.as_slice()),
    }
    bytes
}
