//! What tables of rows are made of, and how a value is told. A test ends where memory is wanting or a row is none; what can't be
//! told for want of memory is missing, so that the row fails.

use hb_base::Text;
use std::fmt::{Debug, Display};
use std::process::Abort;

fn push_byte(rt: &impl Abort, bytes: &mut Vec<u8>, digits: &str) {
    let byte = u8::from_str_radix(digits, 16).expect(rt, "two digits");
    bytes.push(byte).expect(rt, "memory");
}

fn push_word(rt: &impl Abort, bytes: &mut Vec<u8>, word: &str) {
    match word.strip_prefix('\'') {
        Some(letters) => bytes
            .extend_from_slice(letters.as_bytes())
            .expect(rt, "memory"),
        None => push_byte(rt, bytes, word),
    }
}

/// Bytes with commas between, so many times.
fn push_entries(rt: &impl Abort, bytes: &mut Vec<u8>, entry: &str, count: usize) {
    for _ in 0..count {
        for digits in entry.split(',') {
            push_byte(rt, bytes, digits);
        }
    }
}

/// Bytes in words with blanks between: two hexadecimal digits, a quote and letters that stand for themselves, or bytes with
/// commas between, a star, and how often they stand.
pub fn bytes_of(rt: &(impl Abort + AllocGlobal), words: &str) -> Vec<u8> {
    let mut bytes = Vec::new(rt.alloc());
    for word in words.split_whitespace() {
        match word.split_once('*') {
            Some((entry, count)) => push_entries(rt, &mut bytes, entry, number(rt, count)),
            None => push_word(rt, &mut bytes, word),
        }
    }
    bytes
}

pub fn number(rt: &impl Abort, field: &str) -> usize {
    field.trim().parse::<usize>().expect(rt, "a number")
}

/// The two fields of a row.
pub fn fields_of<'a>(rt: &impl Abort, row: &'a str) -> (&'a str, &'a str) {
    row.split_once(';').expect(rt, "two fields")
}

pub fn text_of(text: &Text) -> &str {
    std::str::from_utf8(text.as_slice()).unwrap_or("no text")
}

pub fn put(told: &mut String, text: &str) {
    let _ = told.push_str(text);
}

pub fn put_if(told: &mut String, holds: bool, text: &str) {
    if holds {
        put(told, text);
    }
}

/// A value and a text behind it.
pub fn tell<T: Display>(told: &mut String, value: &T, behind: &str) {
    let _ = write!(told, "{value}{behind}");
}

/// A value as its `Debug` has it, and a text behind it.
pub fn tell_debug<T: Debug>(told: &mut String, value: &T, behind: &str) {
    let _ = write!(told, "{value:?}{behind}");
}

/// What is told of a row has to be what the row wants, blanks around both aside; two dots at a want's end stand for any more.
pub fn assert_told(rt: &impl Abort, row: &str, told: &str, want: &str) {
    let told = told.trim();
    let want = want.trim();
    let holds = match want.strip_suffix("..") {
        Some(front) => told.starts_with(front),
        None => told.as_bytes() == want.as_bytes(),
    };
    assert!(rt; holds, "{row}: {told}");
}
