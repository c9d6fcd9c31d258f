//! Bytes, texts, lists, notes and causes, and the texts of faults.

use crate::tables::{assert_told, tell, tell_debug, text_of};
use hb_base::{
    Bytes, Cause, Ip, List, Note, Peer, ReadStop, Target, Text, WriteFault, read_identity,
};
use std::process::Abort;

fn tell_bytes(rt: &(impl Abort + AllocGlobal), told: &mut String) {
    let alloc = rt.alloc();
    let bytes = Bytes::of(alloc, &[0xff]).expect(rt, "memory");
    let copy = bytes.copy(alloc).expect(rt, "memory");
    tell_debug(told, &copy.as_slice(), " ");
}

fn tell_texts(rt: &(impl Abort + AllocGlobal), told: &mut String) {
    let alloc = rt.alloc();
    let text = Text::of(alloc, b"a\0b")
        .expect(rt, "memory")
        .expect(rt, "a text");
    let copy = text.copy(alloc).expect(rt, "memory");
    tell_debug(told, &copy.as_slice(), " ");
    tell_debug(told, &Text::empty(alloc).as_slice(), " ");
    tell_debug(
        told,
        &Text::of(alloc, &[0xff]).expect(rt, "memory").is_none(),
        " ",
    );
}

/// The longest text that takes no memory, and one that is longer by a byte.
fn tell_long_texts(rt: &(impl Abort + AllocGlobal), told: &mut String) {
    for letters in ["abcdefghijklmnopqrstuvw", "abcdefghijklmnopqrstuvwx"] {
        let text = Text::of(rt.alloc(), letters.as_bytes())
            .expect(rt, "memory")
            .expect(rt, "a text");
        let copy = text.copy(rt.alloc()).expect(rt, "memory");
        tell(told, &text_of(&copy), " ");
    }
}

fn tell_list(rt: &(impl Abort + AllocGlobal), told: &mut String) {
    let mut list = List::new(rt.alloc());
    tell_debug(told, &list.is_empty(), " ");
    list.push(7u8).expect(rt, "memory");
    tell_debug(told, &(list.len(), list.get(0), list.get(1)), " ");
}

fn tell_cause(told: &mut String, cause: Cause) {
    tell(told, &cause.word(), " ");
    tell_debug(told, &cause.number(), ", ");
}

fn tell_causes(told: &mut String) {
    tell_cause(told, Cause::Done);
    tell_cause(told, Cause::PeerReset(8));
    tell_cause(told, Cause::FrontFault(0));
    tell_cause(told, Cause::NoMemory);
}

fn tell_faults(told: &mut String) {
    tell(told, &ReadStop::TooLong, "; ");
    tell(told, &ReadStop::Failed, "; ");
    tell(told, &ReadStop::NoMemory, "; ");
    tell(told, &WriteFault, "");
}

/// What the values tell, in turn.
const TOLD: &str = "[255] [97, 0, 98] [] true abcdefghijklmnopqrstuvw abcdefghijklmnopqrstuvwx \
    true (1, Some(7), None) \
    done None, peer reset Some(8), front fault Some(0), no memory None, \
    more bytes than allowed; a read failed; out of memory; a write failed";

#[test]
fn values_tell_what_they_are_given(rt: HostRuntime) {
    let mut told = String::new(rt.alloc());
    tell_bytes(&rt, &mut told);
    tell_texts(&rt, &mut told);
    tell_long_texts(&rt, &mut told);
    tell_list(&rt, &mut told);
    tell_causes(&mut told);
    tell_faults(&mut told);
    assert_told(&rt, "values", told.as_str(), TOLD);
}

fn note_of(rt: &(impl Abort + AllocGlobal), identity: &[u8]) -> Note {
    Note::Verdict {
        link: 3,
        stream: 1,
        status: 403,
        peer: Peer {
            ip: Ip::V4(7),
            identity: read_identity(rt.alloc(), identity).expect(rt, "memory"),
        },
        target: Some(Target {
            ip: Ip::V4(8),
            port: 80,
        }),
    }
}

fn is_noted(note: &Note) -> bool {
    match note {
        Note::Verdict {
            link: 3,
            stream: 1,
            status: 403,
            peer: Peer {
                ip: Ip::V4(7),
                identity: Some(identity),
            },
            target: Some(
                Target {
                    ip: Ip::V4(8),
                    port: 80,
                },
            ),
        } => identity.principal_equals(b"td/ns/a/sa/b"),
        _ => false,
    }
}

#[test]
fn a_copied_note_is_the_same(rt: HostRuntime) {
    let note = note_of(&rt, b"spiffe://td/ns/a/sa/b");
    let copy = note.copy(rt.alloc()).expect(&rt, "memory");
    assert!(rt; is_noted(&copy), "another note");
}
