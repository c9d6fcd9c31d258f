//! Steps of a row: a word for the call, and what it is called with or has to answer.

use crate::acts::{self, MANY, connect, end_of};
use crate::octets::{cut, flood_of, number_of, octets_of};
use hb_base::Or;
use hb_conn::Conn;
use hb_streams::{OpenFault, Role};
use std::alloc::Global;
use std::process::Abort;

/// A connection whose output is looked at and written by hand.
#[derive(Drop)]
pub struct Desk {
    conn: Conn,
    /// What the peer offers, and how many of those octets were taken.
    offered: Vec<u8>,
    at: usize,
    /// How many happenings were told since they were last counted.
    told: u32,
}

impl Desk {
    pub fn new(rt: &impl Abort, alloc: Global, role: &str) -> Desk {
        Desk {
            conn: end_of(rt, alloc, role),
            offered: Vec::new(alloc),
            at: 0,
            told: 0,
        }
    }

    fn drain(&mut self, rt: &impl Abort) {
        for _ in 0..MANY {
            match self.conn.next_happening() {
                Ok(Some(_)) => self.told = self.told.saturating_add(1),
                Ok(None) => return,
                Err(_) => panic!(rt; "memory"),
            }
        }
    }

    /// What is offered is taken, as far as it can be.
    fn go_on(&mut self, rt: &impl Abort) {
        for _ in 0..MANY {
            self.drain(rt);
            let offered = self.offered.as_slice();
            let left = &offered[self.at.min(offered.len())..];
            let taken = self.conn.take(left).min(left.len());
            if taken == 0 {
                return;
            }
            self.at = self.at.saturating_add(taken);
        }
    }

    /// The peer offers more octets.
    fn come(&mut self, rt: &impl Abort, octets: &[u8]) {
        self.offered.extend_from_slice(octets).expect(rt, "memory");
        self.go_on(rt);
    }

    fn wrote(&mut self, rt: &impl Abort, n: usize) {
        acts::wrote(rt, &mut self.conn, n);
        self.go_on(rt);
    }

    /// The last octets of the output are these.
    fn waits(&self, rt: &impl Abort, row: &str, want: &[u8]) {
        assert!(rt;
            self.conn.output().ends_with(want),
            "{row}: other octets wait"
        );
    }

    /// All of the output is this, and is written.
    fn sent(&mut self, rt: &impl Abort, row: &str, want: &[u8]) {
        assert!(rt; self.conn.output() == want, "{row}: other octets are sent");
        self.wrote(rt, want.len());
    }

    /// DATA of the stream waits and hasn't begun, is begun in part, or is neither.
    fn data(&self, rt: &impl Abort, row: &str, stream: u32, want: &str) {
        let unbegun = match self.conn.unbegun() {
            Some(first) => first.stream == stream,
            None => false,
        };
        let begun = self.conn.data_begun(stream);
        assert!(rt;
            unbegun == (want == "unbegun") && begun == (want == "begun"),
            "{row}: data {stream}"
        );
    }

    /// A call on a stream, or a question and its answer.
    fn act(&mut self, rt: &impl Abort, row: &str, call: &str, stream: u32, rest: &str) {
        match call {
            "status" => acts::status(rt, &mut self.conn, stream, rest),
            "end" => acts::end(rt, &mut self.conn, stream),
            "reset" => acts::reset(rt, &mut self.conn, stream, number_of(rt, rest)),
            "credit" => acts::credit(rt, &mut self.conn, stream, number_of(rt, rest)),
            "data" => self.data(rt, row, stream, rest),
            "ends" => assert!(rt;
                self.conn.end_waits(stream) == (rest == "yes"),
                "{row}: ends {stream}"
            ),
            _ => {
                assert!(rt; call == "own", "{row}: {call}");
                let own = self.conn.sides(stream).own;
                assert!(rt; own == (rest == "yes"), "{row}: own {stream}");
            }
        }
    }

    /// The same call on every second stream from one to another.
    fn each(&mut self, rt: &impl Abort, row: &str, words: &str) {
        let (call, rest) = cut(words, " ");
        let (first, rest) = cut(rest, " ");
        let (last, rest) = cut(rest, " ");
        let first = number_of(rt, first);
        let last = number_of(rt, last);
        for stream in first..last {
            if stream % 2 == 1 {
                self.act(rt, row, call, stream, rest);
            }
        }
    }

    /// Opens a stream, which may be none for want of places.
    fn open_next(&mut self, rt: &impl Abort, alloc: Global) -> Option<u32> {
        let headers = connect(rt, alloc, "");
        assert!(rt; self.conn.room() >= 1_024);
        match self.conn.role() {
            Role::Client => match self.conn.open(&headers, false) {
                Ok(stream) => Some(stream),
                Err(Or::Fault(OpenFault::Full)) => None,
                Err(_) => panic!(rt; "memory or numbers"),
            },
            Role::Server => panic!(rt; "a client"),
        }
    }

    /// Opens streams: the first of their numbers, and how many.
    fn opens(&mut self, rt: &impl Abort, alloc: Global, row: &str, words: &str) {
        let (first, many) = cut(words, " ");
        let mut want = number_of(rt, first);
        for _ in 0..number_of(rt, many) {
            let stream = self.open_next(rt, alloc).unwrap_or(0);
            assert!(rt; stream == want, "{row}: opened {stream}");
            want = want.saturating_add(2);
        }
    }

    /// Opens a stream: its number, or 0 where there is to be none, and whether it ends.
    fn open(&mut self, rt: &impl Abort, alloc: Global, row: &str, words: &str) {
        let (stream, end) = cut(words, " ");
        let headers = connect(rt, alloc, "");
        let stream = number_of(rt, stream);
        acts::open(rt, &mut self.conn, row, &headers, stream, end == "end");
    }

    /// How many there are now.
    fn count(&self, call: &str) -> Option<usize> {
        match call {
            "told" => Some(self.told as usize),
            "streams" => Some(self.conn.streams_open() as usize),
            "room" => Some(self.conn.room()),
            "space" => Some(self.conn.space()),
            "left" => Some(self.offered.len().saturating_sub(self.at)),
            _ => None,
        }
    }

    /// A question and its answer, or an act on a stream.
    fn ask(&mut self, rt: &impl Abort, row: &str, call: &str, words: &str) {
        let (first, rest) = cut(words, " ");
        let number = number_of(rt, first);
        match self.count(call) {
            Some(count) => assert!(rt; count == number as usize, "{row}: {call} {count}"),
            None => self.act(rt, row, call, number, rest),
        }
        if call == "told" {
            self.told = 0;
        }
    }

    /// The peer opens every second stream up to one.
    fn peer_opens(&mut self, rt: &impl Abort, last: u32) {
        for stream in 1..last {
            if stream % 2 == 1 {
                let number = stream.to_be_bytes();
                let [a, b, c, d] = number;
                self.come(rt, &[0, 0, 1, 1, 4, a, b, c, d, 0x82]);
            }
        }
    }

    /// A step that has octets, which come, or are in the output.
    fn step_of(&mut self, rt: &impl Abort, alloc: Global, row: &str, call: &str, words: &str) {
        let octets = flood_of(rt, alloc, words);
        match call {
            "waits" => self.waits(rt, row, octets.as_slice()),
            "sent" => self.sent(rt, row, octets.as_slice()),
            _ => self.come(rt, octets.as_slice()),
        }
    }

    /// Does one step, and holds what it tells against the row.
    pub fn step(&mut self, rt: &impl Abort, alloc: Global, row: &str, words: &str) {
        let (call, rest) = cut(words, " ");
        match call {
            "take" | "come" | "waits" | "sent" => self.step_of(rt, alloc, row, call, rest),
            "wrote" => self.wrote(rt, number_of(rt, rest) as usize),
            "some" => acts::letters(rt, alloc, &mut self.conn, row, rest),
            "peer" => self.peer_opens(rt, number_of(rt, rest)),
            "each" => self.each(rt, row, rest),
            "open" => self.open(rt, alloc, row, rest),
            "opens" => self.opens(rt, alloc, row, rest),
            "full" => assert!(rt; self.open_next(rt, alloc).is_none(), "{row}: full"),
            _ => self.ask(rt, row, call, rest),
        }
    }
}
