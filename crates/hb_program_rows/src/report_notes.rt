//! How a table writes notes: in words, with a comma between them.
//!
//! `verdict`, the link, the stream, the status, the address of the peer, its identity, the target; or `end`, the link, the stream, the
//! bytes up and down, the cause. `none` stands for no identity and no target.

use crate::report_entries::{cause_of, cut, number_of};
use hb_base::{Identity, Note, Peer, Target, read_identity, read_ip, read_target};
use std::alloc::Global;
use std::process::Abort;

fn identity_of(rt: &impl Abort, alloc: Global, word: &str) -> Option<Identity> {
    if word == "none" {
        return None;
    }
    let identity = read_identity(alloc, word.as_bytes()).expect(rt, "memory");
    Some(identity.expect(rt, "an identity"))
}

fn target_of(rt: &impl Abort, word: &str) -> Option<Target> {
    if word == "none" {
        return None;
    }
    Some(read_target(word.as_bytes()).ok().expect(rt, "a target"))
}

fn verdict(rt: &impl Abort, alloc: Global, link: u64, stream: u32, words: &str) -> Note {
    let (status, rest) = cut(words, " ");
    let (ip, rest) = cut(rest, " ");
    let (identity, target) = cut(rest, " ");
    Note::Verdict {
        link,
        stream,
        status: status.parse::<u16>().ok().expect(rt, "a status"),
        peer: Peer {
            ip: read_ip(ip.as_bytes()).expect(rt, "an address"),
            identity: identity_of(rt, alloc, identity),
        },
        target: target_of(rt, target),
    }
}

fn end(rt: &impl Abort, link: u64, stream: u32, words: &str) -> Note {
    let (up, rest) = cut(words, " ");
    let (down, cause) = cut(rest, " ");
    Note::End {
        link,
        stream,
        cause: cause_of(rt, cause),
        up: number_of(rt, up),
        down: number_of(rt, down),
    }
}

fn note_of(rt: &impl Abort, alloc: Global, words: &str) -> Note {
    let (word, rest) = cut(words, " ");
    let (link, rest) = cut(rest, " ");
    let (stream, rest) = cut(rest, " ");
    let link = number_of(rt, link);
    let stream = stream.parse::<u32>().ok().expect(rt, "a stream");
    if word == "verdict" {
        return verdict(rt, alloc, link, stream, rest);
    }
    assert!(rt; word == "end", "no note {words}");
    end(rt, link, stream, rest)
}

/// The notes that are written so.
pub fn notes_of(rt: &impl Abort, alloc: Global, text: &str) -> Vec<Note> {
    let mut notes = Vec::new(alloc);
    for words in text.split(", ") {
        if !words.is_empty() {
            notes
                .push(note_of(rt, alloc, words))
                .ok()
                .expect(rt, "memory");
        }
    }
    notes
}
