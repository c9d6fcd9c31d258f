//! Texts, numbers, what a node holds at first, and what is told. A test ends where memory is wanting or a word is none.

use hb_base::Text;
use hb_held::{Held, OwnDoors};
use std::alloc::Global;
use std::process::Abort;

/// Appends a text to what is told.
pub fn put(rt: &impl Abort, told: &mut String, text: &str) {
    told.push_str(text).expect(rt, "memory");
}

/// What is told of a row is what it wants.
pub fn same(rt: &impl Abort, row: &str, told: &str, want: &str) {
    assert!(rt; told == want, "{row}: {told}");
}

/// The text of these bytes.
pub fn text_of(rt: &impl Abort, alloc: Global, bytes: &[u8]) -> Text {
    let text = Text::of(alloc, bytes).expect(rt, "memory");
    text.expect(rt, "UTF-8")
}

pub fn number_of(rt: &impl Abort, word: &str) -> u32 {
    word.parse::<u32>().ok().expect(rt, "a number")
}

/// A node `n1` of the network `net` that holds nothing.
pub fn nothing_held(rt: &impl Abort, alloc: Global) -> Held {
    let network = text_of(rt, alloc, b"net");
    Held::new(alloc, network, text_of(rt, alloc, b"n1"), OwnDoors::none())
}
