//! Bytes and texts in words. A test ends where memory is wanting or a word is none.

use hb_base::Text;
use std::alloc::Global;
use std::process::Abort;

fn byte_of(rt: &impl Abort, digits: &[u8]) -> u8 {
    let digits = std::str::from_utf8(digits).unwrap_or("");
    u8::from_str_radix(digits, 16).ok().expect(rt, "two digits")
}

fn push_word(rt: &impl Abort, bytes: &mut Vec<u8>, digits: &str) {
    for pair in digits.as_bytes().chunks(2) {
        bytes.push(byte_of(rt, pair)).expect(rt, "memory");
    }
}

/// Appends the bytes that words with blanks between stand for, two digits a byte; behind a star stands how often a word does.
pub fn push_words(rt: &impl Abort, bytes: &mut Vec<u8>, words: &str) {
    for word in words.split_whitespace() {
        let (digits, count) = word.split_once('*').unwrap_or((word, "1"));
        let count = count.parse::<usize>().ok().expect(rt, "a number");
        for _ in 0..count {
            push_word(rt, bytes, digits);
        }
    }
}

/// The bytes that words stand for.
pub fn bytes_of(rt: &impl Abort, alloc: Global, words: &str) -> Vec<u8> {
    let mut bytes = Vec::new(alloc);
    push_words(rt, &mut bytes, words);
    bytes
}

/// The text of these bytes.
pub fn text_of(rt: &impl Abort, alloc: Global, bytes: &[u8]) -> Text {
    let text = Text::of(alloc, bytes).expect(rt, "memory");
    text.expect(rt, "UTF-8")
}

/// The text of a table.
pub fn text_in(table: &[u8]) -> &str {
    std::str::from_utf8(table).unwrap_or("no text")
}
