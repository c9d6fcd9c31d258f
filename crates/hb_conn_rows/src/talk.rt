//! One end in a conversation, and what it tells, in the words of a table.

use crate::acts::{self, MANY, connect, end_of};
use crate::octets::{cut, number_of, octets_of};
use hb_conn::{Conn, Happening};
use hb_hpack::HeaderList;
use std::alloc::Global;
use std::process::Abort;

/// From this size on the headers of a list aren't told.
const LARGE: u64 = 1_000;

/// Appends octets that are letters.
pub fn show(rt: &impl Abort, shown: &mut String, octets: &[u8]) {
    let text = std::str::from_utf8(octets).ok().expect(rt, "a text");
    shown.push_str(text).expect(rt, "memory");
}

fn tell_headers(rt: &impl Abort, told: &mut String, headers: &HeaderList) {
    if headers.size >= LARGE {
        show(rt, told, b"+");
        return;
    }
    let mut mark = "";
    for header in headers.kept.as_slice() {
        show(rt, told, mark.as_bytes());
        show(rt, told, header.name.as_slice());
        show(rt, told, b"=");
        show(rt, told, header.value.as_slice());
        mark = ",";
    }
}

/// Appends a line that says what happened.
fn tell(rt: &impl Abort, told: &mut String, happening: Happening<'_>) {
    let put = match happening {
        Happening::Opened {
            stream,
            headers,
            end,
        } => {
            let end = if end { "end" } else { "open" };
            write!(told, "opened {stream} {end} {} ", headers.size).expect(rt, "memory");
            tell_headers(rt, told, headers);
            Ok(())
        }
        Happening::Chunk { stream, bytes } => {
            write!(told, "chunk {stream} ").expect(rt, "memory");
            show(rt, told, bytes);
            Ok(())
        }
        Happening::Ended { stream } => write!(told, "ended {stream}"),
        Happening::Reset { stream, code } => write!(told, "reset {stream} {code}"),
        Happening::Broken { stream, code } => write!(told, "broken {stream} {code}"),
        Happening::GoneAway { last } => write!(told, "gone {last}"),
        Happening::Fault { code } => write!(told, "fault {code}"),
    };
    put.expect(rt, "memory");
    show(rt, told, b"\n");
}

/// One end, and how what comes is cut: not at all where `chance` is 0.
#[derive(Drop)]
pub struct Talk {
    conn: Conn,
    chance: u32,
}

impl Talk {
    pub fn new(rt: &impl Abort, alloc: Global, role: &str, chance: u32) -> Talk {
        Talk {
            conn: end_of(rt, alloc, role),
            chance,
        }
    }

    /// How many octets come at once, of so many at most.
    fn piece(&mut self, most: usize) -> usize {
        if self.chance == 0 {
            return most;
        }
        self.chance = self
            .chance
            .wrapping_mul(1_664_525)
            .wrapping_add(1_013_904_223)
            | 1;
        let number = (self.chance >> 12) as usize;
        let size = if number % 4 == 0 {
            number % 5_000
        } else {
            number % 23
        };
        (size + 1).min(most)
    }

    fn drain(&mut self, rt: &impl Abort, told: &mut String) {
        for _ in 0..MANY {
            match self.conn.next_happening() {
                Ok(Some(happening)) => tell(rt, told, happening),
                Ok(None) => return,
                Err(_) => panic!(rt; "memory"),
            }
        }
    }

    /// The peer's octets come; what happened is told, a line each.
    pub fn come(&mut self, rt: &impl Abort, told: &mut String, octets: &[u8]) {
        let mut left = octets;
        for _ in 0..MANY {
            let size = self.piece(left.len()).min(left.len());
            let taken = self.conn.take(&left[..size]).min(left.len());
            left = left.split_at(taken).1;
            self.drain(rt, told);
            if taken == 0 {
                return;
            }
        }
    }

    /// All that waits is this.
    pub fn output(&self, rt: &impl Abort, name: &str, want: &[u8]) {
        assert!(rt; self.conn.output() == want, "{name}: other octets wait");
    }

    fn open(&mut self, rt: &impl Abort, alloc: Global, name: &str, stream: u32, words: &str) {
        let (authority, end) = cut(words, " ");
        let headers = connect(rt, alloc, authority);
        acts::open(rt, &mut self.conn, name, &headers, stream, end == "end");
    }

    fn some(&mut self, rt: &impl Abort, alloc: Global, name: &str, stream: u32, words: &str) {
        let (want, words) = cut(words, " ");
        let octets = octets_of(rt, alloc, words);
        acts::some(rt, &mut self.conn, name, stream, octets.as_slice(), want);
    }

    /// An act of this end, and what it is answered.
    pub fn act(&mut self, rt: &impl Abort, alloc: Global, name: &str, line: &str) {
        let (call, rest) = cut(line, " ");
        let (number, rest) = cut(rest, " ");
        let number = number_of(rt, number);
        match call {
            "wrote" => acts::wrote(rt, &mut self.conn, number as usize),
            "open" => self.open(rt, alloc, name, number, rest),
            "status" => acts::status(rt, &mut self.conn, number, rest),
            "end" => acts::end(rt, &mut self.conn, number),
            "reset" => acts::reset(rt, &mut self.conn, number, number_of(rt, rest)),
            "credit" => acts::credit(rt, &mut self.conn, number, number_of(rt, rest)),
            "some" => self.some(rt, alloc, name, number, rest),
            _ => panic!(rt; "{name}: {line}"),
        }
    }
}
