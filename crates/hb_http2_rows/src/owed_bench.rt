//! Steps of a row: a word for the call, and what it is called with or has to answer.

use crate::hex::octets_of;
use crate::told::{cut, number_of};
use hb_hpack::{Encoder, Spelling};
use hb_outgoing::Outgoing;
use hb_owed::Owed;
use std::alloc::Global;
use std::process::Abort;

const LARGEST: u32 = 2_147_483_647;

/// What is owed, what waits to be written, and the encoder.
#[derive(Drop)]
pub struct Bench {
    owed: Owed,
    out: Outgoing,
    encoder: Encoder,
}

impl Bench {
    pub fn new(rt: &impl Abort, alloc: Global) -> Bench {
        Bench {
            owed: Owed::new(alloc),
            out: Outgoing::new(alloc).expect(rt, "memory"),
            encoder: Encoder::new(Spelling::Plain),
        }
    }

    fn open(&mut self, rt: &impl Abort, stream: u32) {
        assert!(rt; stream <= LARGEST);
        self.owed.open(stream).expect(rt, "memory");
    }

    fn status(&mut self, rt: &impl Abort, stream: u32, words: &str) {
        let (digits, end) = cut(words, " ");
        let number = number_of(rt, digits);
        assert!(rt; number >= 100 && number < 1000);
        self.owed.owe_status(stream, number as u16, end == "end");
    }

    fn credit(&mut self, rt: &impl Abort, stream: u32, n: u32) {
        assert!(rt; n <= LARGEST);
        assert!(rt; self.owed.credit_owed(stream) <= LARGEST - n);
        self.owed.owe_credit(stream, n);
    }

    /// Puts a DATA frame of stream 99 that leaves so much room.
    fn fill(&mut self, rt: &impl Abort, alloc: Global, room: usize) {
        let free = self.out.room();
        assert!(rt; room <= 65_536 && free <= 65_536 && room + 9 <= free);
        let mut payload = Vec::new(alloc);
        payload.resize(free - 9 - room, 0).expect(rt, "memory");
        self.out.put_frame(0, 0, 99, payload.as_slice());
    }

    fn wrote(&mut self, rt: &impl Abort, n: usize) {
        assert!(rt; n <= self.out.front().len());
        self.out.wrote(n);
    }

    fn waits(&self, rt: &impl Abort, alloc: Global, row: &str, digits: &str) {
        let want = octets_of(rt, alloc, digits);
        assert!(rt;
            self.out.front() == want.as_slice(),
            "{row}: other octets wait"
        );
    }

    /// A call that changes what is owed or what waits; false where the word is none of these.
    fn act(&mut self, rt: &impl Abort, alloc: Global, call: &str, stream: u32, rest: &str) -> bool {
        match call {
            "open" => self.open(rt, stream),
            "status" => self.status(rt, stream, rest),
            "end" => self.owed.owe_end(stream),
            "credit" => self.credit(rt, stream, number_of(rt, rest)),
            "reset" => self.owed.owe_reset(stream, number_of(rt, rest)),
            "close" => self.owed.close(stream),
            "back" => self.owed.take_back(stream),
            "fill" => self.fill(rt, alloc, stream as usize),
            "wrote" => self.wrote(rt, stream as usize),
            _ => return false,
        }
        true
    }

    /// A question on a stream, and its answer.
    fn ask(&self, rt: &impl Abort, row: &str, call: &str, stream: u32, rest: &str) {
        match call {
            "owes" => assert!(rt;
                self.owed.owes(stream) == (rest == "yes"),
                "{row}: owes {stream}"
            ),
            "ends" => assert!(rt;
                self.owed.end_owed(stream) == (rest == "yes"),
                "{row}: ends {stream}"
            ),
            _ => {
                assert!(rt; call == "credits", "{row}: {call}");
                let credit = self.owed.credit_owed(stream);
                assert!(rt; credit == number_of(rt, rest), "{row}: credits {stream}");
            }
        }
    }

    /// Does one step, and holds what it tells against the row.
    pub fn step(&mut self, rt: &impl Abort, alloc: Global, row: &str, words: &str) {
        let (call, rest) = cut(words, " ");
        match call {
            "pay" => self.owed.pay(&mut self.out, &mut self.encoder),
            "clear" => self.owed.clear(),
            "none" => assert!(rt;
                self.owed.is_clear() == (rest == "yes"),
                "{row}: none {rest}"
            ),
            "waits" => self.waits(rt, alloc, row, rest),
            _ => {
                let (stream, rest) = cut(rest, " ");
                let stream = number_of(rt, stream);
                if !self.act(rt, alloc, call, stream, rest) {
                    self.ask(rt, row, call, stream, rest);
                }
            }
        }
    }
}
