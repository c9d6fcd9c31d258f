//! Rows of tables, and what is told of them, compared as one text.

use std::fmt::Debug;
use std::process::Abort;

/// Tells a value as `{:?}` shows it.
pub fn tell(rt: &impl Abort, told: &mut String, value: &impl Debug) {
    writeln!(told, "{value:?}").expect(rt, "memory");
}

/// A row in front of a mark and behind it; the whole row and nothing where it has none.
pub fn cut<'a>(row: &'a str, mark: &str) -> (&'a str, &'a str) {
    row.split_once(mark).unwrap_or((row, ""))
}

/// The number of a text in decimal digits.
pub fn number_of(rt: &impl Abort, text: &str) -> u32 {
    text.parse::<u32>().ok().expect(rt, "a number")
}

/// The number of a text; another one of an empty text.
pub fn number_or(rt: &impl Abort, text: &str, other: u32) -> u32 {
    if text.is_empty() {
        other
    } else {
        number_of(rt, text)
    }
}

/// What is told of a row has to be what the row wants.
pub fn assert_told(rt: &impl Abort, row: &str, told: &str, want: &str) {
    assert!(rt;
        told.as_bytes() == want.as_bytes(),
        "{row}: {told}, not {want}"
    );
}

/// The octets of a row have to be those that the row wants.
pub fn assert_octets(rt: &impl Abort, row: &str, octets: &[u8], want: &[u8]) {
    assert!(rt; octets == want, "{row}");
}
