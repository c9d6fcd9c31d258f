//! Responses in words, and what is told of them. A test ends where memory is wanting or a word is none.

use crate::held_records::bytes_of;
use crate::told::{put, text_of};
use hb_base::{Bytes, List, Text};
use hb_disco::{Kind, Resource, Response};
use hb_held::{Held, Outcome};
use std::alloc::Global;
use std::process::Abort;

pub fn tell_text(rt: &impl Abort, told: &mut String, text: &Text) {
    let text = std::str::from_utf8(text.as_slice()).unwrap_or("no text");
    put(rt, told, if text.is_empty() { "-" } else { text });
}

/// `-` is the empty text.
pub fn name_of(rt: &impl Abort, alloc: Global, text: &str) -> Text {
    let text = if text == "-" { "" } else { text };
    text_of(rt, alloc, text.as_bytes())
}

pub fn kind_of(word: &str) -> Kind {
    if word == "a" {
        Kind::Address
    } else {
        Kind::Authorization
    }
}

pub fn word_of(kind: Kind) -> &'static str {
    match kind {
        Kind::Address => "a",
        Kind::Authorization => "z",
    }
}

fn other(kind: Kind) -> Kind {
    match kind {
        Kind::Address => Kind::Authorization,
        Kind::Authorization => Kind::Address,
    }
}

/// A resource, as `name@version:record`; `!` in front stands for the other kind's type.
fn resource_of(rt: &impl Abort, alloc: Global, kind: Kind, word: &str) -> Resource {
    let (word, kind) = match word.strip_prefix("!") {
        Some(rest) => (rest, other(kind)),
        None => (word, kind),
    };
    let (names, record) = word.split_once(":").unwrap_or((word, ""));
    let (name, version) = names.split_once("@").unwrap_or((names, "1"));
    let bytes = bytes_of(rt, alloc, record);
    Resource {
        name: name_of(rt, alloc, name),
        version: name_of(rt, alloc, version),
        type_url: text_of(rt, alloc, kind.type_url()),
        value: Bytes::from_vec(bytes),
    }
}

/// A response: its kind, `a` for addresses and `z` for policies; names that are removed, each behind `~`; and resources.
pub fn response_of(rt: &impl Abort, alloc: Global, words: &str) -> Response {
    let words = words.trim();
    let (first, rest) = words.split_once(" ").unwrap_or((words, ""));
    let kind = kind_of(first);
    let mut resources = List::new(alloc);
    let mut removed = List::new(alloc);
    for word in rest.split_whitespace() {
        match word.strip_prefix("~") {
            Some(name) => removed.push(name_of(rt, alloc, name)).expect(rt, "memory"),
            None => resources
                .push(resource_of(rt, alloc, kind, word))
                .expect(rt, "memory"),
        }
    }
    Response {
        kind,
        resources,
        removed,
        nonce: Text::empty(alloc),
    }
}

/// Tells an outcome: how many were applied and removed, what changed, and what was refused.
pub fn tell_outcome(rt: &impl Abort, told: &mut String, outcome: &Outcome) {
    write!(told, "{} {}", outcome.applied, outcome.removed).expect(rt, "memory");
    for changed in outcome.changed.as_slice() {
        put(rt, told, " ");
        put(rt, told, word_of(changed.kind));
        put(rt, told, ".");
        tell_text(rt, told, &changed.name);
    }
    for refusal in outcome.refused.as_slice() {
        put(rt, told, " (");
        tell_text(rt, told, &refusal.name);
        write!(told, ": {})", refusal.why).expect(rt, "memory");
    }
}

/// Applies a response in words, and tells its outcome.
pub fn apply(rt: &impl Abort, alloc: Global, held: &mut Held, words: &str, told: &mut String) {
    let response = response_of(rt, alloc, words);
    let outcome = held.apply(alloc, &response).expect(rt, "memory");
    tell_outcome(rt, told, &outcome);
}

/// Applies responses with bars between, and tells of each its outcome.
pub fn apply_all(rt: &impl Abort, alloc: Global, held: &mut Held, all: &str, told: &mut String) {
    for words in all.split('|') {
        if !words.trim().is_empty() {
            apply(rt, alloc, held, words, told);
            put(rt, told, "; ");
        }
    }
}
