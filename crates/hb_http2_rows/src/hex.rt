//! Octets in words.

use crate::told::{cut, number_or};
use std::alloc::Global;
use std::process::Abort;

/// The octet of two hexadecimal digits.
fn octet_of(rt: &impl Abort, digits: &[u8]) -> u8 {
    let digits = std::str::from_utf8(digits).unwrap_or("");
    u8::from_str_radix(digits, 16).ok().expect(rt, "two digits")
}

/// Appends the octets that the digits stand for.
fn push_digits(rt: &impl Abort, octets: &mut Vec<u8>, digits: &str) {
    assert!(rt; digits.len() % 2 == 0);
    for pair in digits.as_bytes().chunks(2) {
        octets.push(octet_of(rt, pair)).expect(rt, "memory");
    }
}

/// Appends the octets of words with blanks between: hexadecimal digits, two an octet, and behind them `*` and a number
/// where they stand so many times over.
pub fn push_octets(rt: &impl Abort, octets: &mut Vec<u8>, words: &str) {
    for word in words.split(' ') {
        let (digits, times) = cut(word, "*");
        for _ in 0..number_or(rt, times, 1) {
            push_digits(rt, octets, digits);
        }
    }
}

/// The octets of words.
pub fn octets_of(rt: &impl Abort, alloc: Global, words: &str) -> Vec<u8> {
    let mut octets = Vec::new(alloc);
    push_octets(rt, &mut octets, words);
    octets
}

/// The octets of words, and of others behind them.
pub fn octets_behind(rt: &impl Abort, alloc: Global, front: &str, words: &str) -> Vec<u8> {
    let mut octets = octets_of(rt, alloc, front);
    push_octets(rt, &mut octets, words);
    octets
}
