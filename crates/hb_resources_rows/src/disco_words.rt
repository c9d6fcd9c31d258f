//! What the rows of the tables are made of. A test ends where memory is wanting or a row is none.

use crate::hex::push_digits;
use crate::told::{put, text_of};
use hb_base::Text;
use std::alloc::Global;
use std::process::Abort;

const ADDRESS: &str = "type.googleapis.com/istio.workload.Address";

const AUTHORIZATION: &str = "type.googleapis.com/istio.security.Authorization";

fn push_repeated(rt: &impl Abort, bytes: &mut Vec<u8>, digits: &str, count: usize) {
    for _ in 0..count {
        push_digits(rt, bytes, digits);
    }
}

fn push_text(rt: &impl Abort, bytes: &mut Vec<u8>, text: &str) {
    bytes
        .extend_from_slice(text.as_bytes())
        .expect(rt, "memory");
}

/// A word, and how often it stands there: `6e*60`.
fn counted<'a>(rt: &impl Abort, word: &'a str) -> (&'a str, usize) {
    match word.split_once("*") {
        Some((word, count)) => (word, count.parse::<usize>().ok().expect(rt, "a number")),
        None => (word, 1),
    }
}

/// What a name stands for: `-` nothing, `UA` and `UZ` the type URLs of an address and of an authorization policy.
pub fn text_named(name: &str) -> &'static str {
    match name {
        "UA" => ADDRESS,
        "UZ" => AUTHORIZATION,
        _ => "",
    }
}

/// Appends bytes in words with blanks between: hexadecimal digits, two a byte, which a star and a number behind may repeat, or a
/// name.
pub fn push_words(rt: &impl Abort, bytes: &mut Vec<u8>, words: &str) {
    for word in words.split_whitespace() {
        if word.starts_with("U") {
            push_text(rt, bytes, text_named(word));
        } else {
            let (digits, count) = counted(rt, word);
            push_repeated(rt, bytes, digits, count);
        }
    }
}

/// The text of a word; `-` is the empty one.
pub fn text_in(rt: &impl Abort, alloc: Global, word: &str) -> Text {
    let mut bytes = Vec::new(alloc);
    if word != "-" {
        let (word, count) = counted(rt, word);
        for _ in 0..count {
            push_text(rt, &mut bytes, word);
        }
    }
    text_of(rt, alloc, bytes.as_slice())
}

/// A text as a row has it.
pub fn put_text(rt: &impl Abort, told: &mut String, text: &Text) {
    put(
        rt,
        told,
        std::str::from_utf8(text.as_slice()).unwrap_or("no text"),
    );
}
