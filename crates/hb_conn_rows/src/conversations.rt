//! Conversations of one end with another implementation, in one go and cut at random.

use crate::conversation_rows;
use crate::octets::{cut, octets_of};
use crate::talk::{Talk, show};
use std::alloc::Global;
use std::process::Abort;

/// What was read of a conversation and isn't compared yet: octets that come, lines that are to be told then, and octets
/// that are to wait after them.
#[derive(Drop)]
struct Read {
    came: Vec<u8>,
    want: String,
    waits: Option<Vec<u8>>,
}

impl Read {
    fn new(alloc: Global) -> Read {
        Read {
            came: Vec::new(alloc),
            want: String::new(alloc),
            waits: None,
        }
    }

    /// A line of what happens.
    fn expect(&mut self, rt: &impl Abort, alloc: Global, line: &str) {
        let (call, rest) = cut(line, " ");
        if call == "chunk" {
            let (stream, words) = cut(rest, " ");
            write!(self.want, "chunk {stream} ").expect(rt, "memory");
            show(rt, &mut self.want, octets_of(rt, alloc, words).as_slice());
        } else {
            show(rt, &mut self.want, line.as_bytes());
        }
        show(rt, &mut self.want, b"\n");
    }

    /// What was read is done, and compared.
    fn compare(&mut self, rt: &impl Abort, alloc: Global, talk: &mut Talk, name: &str) {
        let mut told = String::new(alloc);
        talk.come(rt, &mut told, self.came.as_slice());
        assert!(rt;
            told.as_bytes() == self.want.as_bytes(),
            "{name}: {told}, not {}",
            self.want
        );
        if let Some(waits) = &self.waits {
            talk.output(rt, name, waits.as_slice());
        }
        *self = Read::new(alloc);
    }

    /// One line, in front of which all up to an act is done.
    fn line(&mut self, rt: &impl Abort, alloc: Global, talk: &mut Talk, name: &str, line: &str) {
        let (call, rest) = cut(line, " ");
        match call {
            "take" => {
                let octets = octets_of(rt, alloc, rest);
                self.came
                    .extend_from_slice(octets.as_slice())
                    .expect(rt, "memory");
            }
            ">" => self.expect(rt, alloc, rest),
            "output" => self.waits = Some(octets_of(rt, alloc, rest)),
            "more" => {
                let octets = octets_of(rt, alloc, rest);
                let waits = self.waits.as_mut().expect(rt, "octets");
                waits
                    .extend_from_slice(octets.as_slice())
                    .expect(rt, "memory");
            }
            _ => {
                self.compare(rt, alloc, talk, name);
                talk.act(rt, alloc, name, line);
            }
        }
    }
}

fn renew(rt: &impl Abort, alloc: Global, talk: &mut Talk, role: &str, chance: u32) {
    *talk = Talk::new(rt, alloc, role, chance);
}

/// Follows the lines of a table.
fn follow(
    rt: &impl Abort,
    alloc: Global,
    talk: &mut Talk,
    read: &mut Read,
    table: &[u8],
    chance: u32,
) {
    let mut name = "";
    for line in std::str::from_utf8(table).unwrap_or("no text").lines() {
        let (call, _) = cut(line, " ");
        if call == "server" || call == "client" {
            read.compare(rt, alloc, talk, name);
            renew(rt, alloc, talk, call, chance);
            name = line;
        } else {
            read.line(rt, alloc, talk, name, line);
        }
    }
    read.compare(rt, alloc, talk, name);
}

/// Has the conversations of a table, cut by this chance.
fn converse(rt: &impl Abort, alloc: Global, table: &[u8], chance: u32) {
    let mut talk = Talk::new(rt, alloc, "server", chance);
    let mut read = Read::new(alloc);
    follow(rt, alloc, &mut talk, &mut read, table, chance);
}

/// Has all conversations, cut by this chance.
fn converse_all(rt: &impl Abort, alloc: Global, chance: u32) {
    let tables = [
        conversation_rows::PART_1,
        conversation_rows::PART_2,
        conversation_rows::PART_3,
        conversation_rows::PART_4,
        conversation_rows::PART_5,
        conversation_rows::PART_6,
        conversation_rows::PART_7,
        conversation_rows::PART_8,
        conversation_rows::PART_9,
        conversation_rows::PART_10,
        conversation_rows::PART_11,
    ];
    for table in tables {
        converse(rt, alloc, table, chance);
    }
}

#[test]
fn conversations_in_one_go(rt: HostRuntime) {
    converse_all(&rt, rt.alloc(), 0);
}

#[test]
fn conversations_cut_at_random(rt: HostRuntime) {
    for chance in [1u32, 77, 4_099] {
        converse_all(&rt, rt.alloc(), chance);
    }
}
