//! Bytes in hexadecimal digits.

use std::alloc::Global;
use std::process::Abort;

fn byte_of(rt: &impl Abort, digits: &[u8]) -> u8 {
    let digits = std::str::from_utf8(digits).unwrap_or("");
    u8::from_str_radix(digits, 16).ok().expect(rt, "two digits")
}

/// Appends the bytes that the digits stand for, two a byte.
pub fn push_digits(rt: &impl Abort, bytes: &mut Vec<u8>, digits: &str) {
    for pair in digits.as_bytes().chunks(2) {
        bytes.push(byte_of(rt, pair)).expect(rt, "memory");
    }
}

/// The bytes that the digits stand for.
pub fn bytes_of(rt: &impl Abort, alloc: Global, digits: &str) -> Vec<u8> {
    let mut bytes = Vec::new(alloc);
    push_digits(rt, &mut bytes, digits);
    bytes
}
