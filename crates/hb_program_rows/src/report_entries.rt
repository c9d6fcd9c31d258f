//! How a table writes a trace: entries in words, with a comma between them.
//!
//! A birth is the word of a door, or of why it was dialled, then the link, and for which link and stream. Each dial has the same
//! address. Bytes are written as letters.

use hb_base::{Bytes, Cause, Door, Ip, List, Target, Why};
use hb_world::{Entry, Way, Woken};
use std::alloc::Global;
use std::process::Abort;

const ADDRESS: Target = Target {
    ip: Ip::V4(0x0a00_0007),
    port: 8080,
};

/// A text in front of a mark and behind it; the whole text and nothing where it has none.
pub fn cut<'a>(text: &'a str, mark: &str) -> (&'a str, &'a str) {
    text.split_once(mark).unwrap_or((text, ""))
}

/// A number of 64 bits.
pub fn number_of(rt: &impl Abort, text: &str) -> u64 {
    text.parse::<u64>().ok().expect(rt, "a number")
}

fn bytes_of(rt: &impl Abort, alloc: Global, letters: &str) -> Bytes {
    Bytes::of(alloc, letters.as_bytes()).expect(rt, "memory")
}

fn upstream(rt: &impl Abort, owner: &str) -> Why {
    let (link, stream) = cut(owner, "/");
    Why::Upstream {
        link: number_of(rt, link),
        stream: stream.parse::<u32>().ok().expect(rt, "a number"),
    }
}

fn dialled(rt: &impl Abort, word: &str, link: u64, owner: &str) -> Entry {
    let why = match word {
        "upstream" => upstream(rt, owner),
        "relay" => Why::Plain {
            link: number_of(rt, owner),
        },
        "direct" => Why::Direct {
            link: number_of(rt, owner),
        },
        "gateway" => Why::Gateway {
            link: number_of(rt, owner),
        },
        _ => {
            assert!(rt; word == "discovery", "no entry {word}");
            Why::Discovery
        }
    };
    Entry::Dialled(link, ADDRESS, why)
}

fn numbered(rt: &impl Abort, words: &str) -> Cause {
    let (word, number) = words.rsplit_once(" ").expect(rt, "a number");
    let number = number.parse::<u32>().ok().expect(rt, "a number");
    match word {
        "peer reset" => Cause::PeerReset(number),
        "up refused" => Cause::UpRefused(number),
        "conn fault" => Cause::ConnFault(number),
        "stream fault" => Cause::StreamFault(number),
        "front fault" => Cause::FrontFault(number),
        "refused" => Cause::Refused(number),
        _ => {
            assert!(rt; word == "no route", "no cause {words}");
            Cause::NoRoute(number)
        }
    }
}

/// The cause of these words.
pub fn cause_of(rt: &impl Abort, words: &str) -> Cause {
    match words {
        "done" => Cause::Done,
        "peer gone" => Cause::PeerGone,
        "up fault" => Cause::UpFault,
        "gone away" => Cause::GoneAway,
        "revoked" => Cause::Revoked,
        "no room" => Cause::NoRoom,
        "discovery" => Cause::Discovery,
        "broken" => Cause::Broken,
        "stopped" => Cause::Stopped,
        "no memory" => Cause::NoMemory,
        _ => numbered(rt, words),
    }
}

/// An entry of one link.
fn of_link(rt: &impl Abort, alloc: Global, word: &str, link: u64, rest: &str) -> Entry {
    match word {
        "inbound" => Entry::Accepted(link, Door::Inbound),
        "outbound" => Entry::Accepted(link, Door::Outbound),
        "plain" => Entry::Accepted(link, Door::Plain),
        "opened" => Entry::Opened(link),
        "came" => Entry::Came(link, bytes_of(rt, alloc, rest)),
        "ended" => Entry::Ended(link),
        "broke" => Entry::Broke(link),
        "went" => Entry::Went(link, bytes_of(rt, alloc, rest)),
        "balked" => Entry::Balked(Way::Read(link)),
        "shut" => Entry::Shut(link),
        "closed" => Entry::Closed(link, cause_of(rt, rest)),
        _ => dialled(rt, word, link, rest),
    }
}

fn entry_of(rt: &impl Abort, alloc: Global, words: &str) -> Entry {
    let (word, rest) = cut(words, " ");
    match word {
        "tick" => Entry::Tick,
        "wait" => Entry::Wait(List::new(alloc), Woken::Woke),
        "failed" => Entry::DialFailed(ADDRESS, Why::Discovery),
        _ => {
            let (link, rest) = cut(rest, " ");
            of_link(rt, alloc, word, number_of(rt, link), rest)
        }
    }
}

/// The trace that is written so.
pub fn trace_of(rt: &impl Abort, alloc: Global, text: &str) -> Vec<Entry> {
    let mut trace = Vec::new(alloc);
    for words in text.split(", ") {
        if !words.is_empty() {
            trace
                .push(entry_of(rt, alloc, words))
                .ok()
                .expect(rt, "memory");
        }
    }
    trace
}
