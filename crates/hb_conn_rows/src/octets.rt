//! Octets in words.

use std::alloc::Global;
use std::process::Abort;

/// A text in front of a mark and behind it; the whole text and nothing where it has none.
pub fn cut<'a>(text: &'a str, mark: &str) -> (&'a str, &'a str) {
    text.split_once(mark).unwrap_or((text, ""))
}

/// The octet of two hexadecimal digits.
fn octet_of(rt: &impl Abort, digits: &[u8]) -> u8 {
    let digits = std::str::from_utf8(digits).unwrap_or("");
    u8::from_str_radix(digits, 16).ok().expect(rt, "two digits")
}

/// The digits of a name, or the digits themselves: a client's preface, SETTINGS without settings, and their ACK; the SETTINGS
/// with which this end opens; and those of python3-h2.
fn digits_of(word: &str) -> &str {
    match word {
        "PRE" => "505249202a20485454502f322e300d0a0d0a534d0d0a0d0a",
        "SET" => "000000040000000000",
        "ACK" => "000000040100000000",
        "OWN_SERVER" => "00000c040000000000000300000064000600004000",
        "OWN_CLIENT" => "00000c040000000000000200000000000600004000",
        "H2_CLIENT" => {
            "00002a04000000000000010000100000020000000100040000ffff000500004000000800000000000300000064000600010000"
        }
        "H2_SERVER" => {
            "00002a04000000000000010000100000020000000000040000ffff000500004000000800000000000300000064000600010000"
        }
        digits => digits,
    }
}

/// The number of a text in decimal digits.
pub fn number_of(rt: &impl Abort, text: &str) -> u32 {
    text.parse::<u32>().ok().expect(rt, "a number")
}

/// A word in front of its `*`, and how often it stands: the number behind that, or once.
pub fn times_of<'a>(rt: &impl Abort, word: &'a str) -> (&'a str, u32) {
    match word.split_once("*") {
        Some((word, times)) => (word, number_of(rt, times)),
        None => (word, 1),
    }
}

/// The octets of words with blanks between: names or hexadecimal digits, and behind them `*` and a number where they
/// stand so many times over.
pub fn octets_of(rt: &impl Abort, alloc: Global, words: &str) -> Vec<u8> {
    let mut octets = Vec::new(alloc);
    for word in words.split(' ') {
        let (word, times) = times_of(rt, word);
        for _ in 0..times {
            for pair in digits_of(word).as_bytes().chunks(2) {
                octets.push(octet_of(rt, pair)).expect(rt, "memory");
            }
        }
    }
    octets
}

/// Appends the octets of the words once, `@` in them standing for a number in four octets.
fn append(rt: &impl Abort, alloc: Global, octets: &mut Vec<u8>, words: &str, number: u32) {
    let digits = format!(in alloc; "{number:08x}").expect(rt, "memory");
    let words = words.replace(alloc, "@", digits.as_str());
    let words = words.expect(rt, "memory");
    let more = octets_of(rt, alloc, words.as_str());
    octets
        .extend_from_slice(more.as_slice())
        .expect(rt, "memory");
}

/// The octets of words; behind `odd` or `all`, a number and another one, those of the rest once for each odd number, or each,
/// from the first up to the second, which is left out, where `@` is the number in four octets.
pub fn flood_of(rt: &impl Abort, alloc: Global, words: &str) -> Vec<u8> {
    let (which, rest) = cut(words, " ");
    if which != "odd" && which != "all" {
        return octets_of(rt, alloc, words);
    }
    let (first, rest) = cut(rest, " ");
    let (last, rest) = cut(rest, " ");
    let mut octets = Vec::new(alloc);
    for number in number_of(rt, first)..number_of(rt, last) {
        if which == "all" || number % 2 == 1 {
            append(rt, alloc, &mut octets, rest, number);
        }
    }
    octets
}
