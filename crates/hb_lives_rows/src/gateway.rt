//! Lives of a link to a gateway, number 9: from 10.0.0.9 to 10.0.0.7, port 15008.

use crate::gateway_rows::{LIVES, OPENING};
use crate::words::{
    At, cut, must, number_of, octets_of, put_cause, same, stream_of, text_of, words_of_act,
};
use hb_base::{Cause, Ip, Target};
use hb_gate::{Gate, Look, Mail};
use hb_gateway::Key;
use std::alloc::Global;
use std::process::Abort;

/// A link, and the bytes that its last look brought.
#[derive(Drop)]
struct Life {
    alloc: Global,
    gate: Gate,
    brought: Vec<u8>,
}

/// The words of an end of a tunnel: its stream, its captured link, how many of its bytes have begun to go, and the cause.
fn put_mail(words: &mut String, mail: Mail) {
    let _ = write!(words, "{} {} {} ", mail.stream, mail.link, mail.begun);
    put_cause(words, mail.cause);
}

fn words_of_mail(alloc: Global, mail: Option<Mail>) -> String {
    let mut words = String::new(alloc);
    match mail {
        None => {
            let _ = words.push_str("none");
        }
        Some(mail) => put_mail(&mut words, mail),
    }
    words
}

fn words_of_look(alloc: Global, look: Look) -> String {
    let mut words = String::new(alloc);
    let _ = match look {
        Look::Nothing => words.push_str("nothing"),
        Look::Passed => words.push_str("passed"),
        Look::Opens { stream, link, end } => write!(words, "opens {stream} {link} {end}"),
        Look::Brings { stream, link } => write!(words, "brings {stream} {link}"),
        Look::Ends { stream, link } => write!(words, "ends {stream} {link}"),
        Look::Fails(mail) => {
            let mail = words_of_mail(alloc, Some(mail));
            write!(words, "fails {mail}")
        }
        Look::Lacked => words.push_str("lacked"),
    };
    words
}

/// The calls of the link, and of its streams.
impl Life {
    /// One that was dialled, of a source without an identity.
    fn new(rt: &impl Abort, alloc: Global) -> Life {
        let key = Key {
            identity: None,
            source: Ip::V4(0x0a00_0009),
            gateway: Target {
                ip: Ip::V4(0x0a00_0007),
                port: 15008,
            },
        };
        Life {
            alloc,
            gate: Gate::dialled(alloc, 9, key).ok().expect(rt, "memory"),
            brought: Vec::new(alloc),
        }
    }

    fn come(&mut self, rt: &impl Abort, at: At, words: &str) {
        let octets = octets_of(rt, self.alloc, words);
        must(rt, at, octets.len() <= self.gate.wants());
        self.gate.take_bytes(octets.as_slice());
    }

    /// What waits is written, and is put behind what went.
    fn write(&mut self, rt: &impl Abort, sent: &mut Vec<u8>) {
        let output = self.gate.output();
        let n = output.len();
        sent.extend_from_slice(output).expect(rt, "memory");
        self.gate.wrote(n);
    }

    fn sent(&mut self, rt: &impl Abort, at: At, words: &str) {
        let wanted = octets_of(rt, self.alloc, words);
        let mut sent = Vec::new(self.alloc);
        for _ in 0..4 {
            self.write(rt, &mut sent);
        }
        must(rt, at, sent.as_slice() == wanted.as_slice());
        must(rt, at, self.gate.output().is_empty());
    }

    /// What the next look finds, in words.
    fn look(&mut self, rt: &impl Abort) -> String {
        let look = self.gate.look(&mut self.brought).ok().expect(rt, "memory");
        words_of_look(self.alloc, look)
    }

    /// The last look brought these octets.
    fn brought(&self, rt: &impl Abort, at: At, words: &str) {
        let wanted = octets_of(rt, self.alloc, words);
        must(rt, at, self.brought.as_slice() == wanted.as_slice());
    }

    /// The next end that is to be told, in words.
    fn mail(&mut self) -> String {
        words_of_mail(self.alloc, self.gate.next_mail())
    }

    fn act(&mut self) -> String {
        words_of_act(self.alloc, self.gate.next_act())
    }

    fn ask(&mut self, rt: &impl Abort, at: At, stream: u32, link: u64) {
        let authority = Target {
            ip: Ip::V4(0x0a00_0008),
            port: 80,
        };
        must(rt, at, self.gate.offers());
        let got = self.gate.ask(link, authority).ok().expect(rt, "memory");
        must(rt, at, got == stream);
    }

    /// The captured link whose tunnel a stream carries, in words.
    fn carried(&self, stream: u32) -> String {
        let mut words = String::new(self.alloc);
        let _ = match self.gate.link(stream) {
            None => words.push_str("none"),
            Some(link) => write!(words, "{link}"),
        };
        words
    }

    fn put(&mut self, rt: &impl Abort, at: At, stream: u32, words: &str) {
        let (wanted, words) = cut(words, " ");
        let bytes = octets_of(rt, self.alloc, words);
        let n = self.gate.put(stream, bytes.as_slice());
        must(rt, at, n as u64 == number_of(rt, wanted));
    }

    fn leave(&mut self, rt: &impl Abort, at: At, stream: u32, wanted: u64) {
        must(rt, at, self.gate.is_through(stream));
        must(rt, at, self.gate.leave(stream) == wanted);
    }
}

/// The lines.
impl Life {
    /// A line on a stream.
    fn on_stream(&mut self, rt: &impl Abort, at: At, call: &str, rest: &str) {
        let (number, words) = cut(rest, " ");
        let stream = stream_of(rt, number);
        match call {
            "ask" => self.ask(rt, at, stream, number_of(rt, words)),
            "carries" => same(rt, at, self.carried(stream).as_str(), words),
            "put" => self.put(rt, at, stream, words),
            "credit" => self.gate.credit(stream, number_of(rt, words)),
            "finish" => self.gate.finish(stream),
            "leave" => self.leave(rt, at, stream, number_of(rt, words)),
            _ => {
                must(rt, at, call == "drop");
                must(rt, at, self.gate.give_up(stream) == number_of(rt, words));
            }
        }
    }

    /// A line on the link itself.
    fn on_link(&mut self, rt: &impl Abort, at: At, call: &str, rest: &str) {
        match call {
            "opened" => self.gate.opened(),
            "ended" => self.gate.ended(),
            "broke" => self.gate.broke(),
            "stopped" => self.gate.stopped(Cause::Stopped),
            "resets" => self.gate.reset_ended(),
            "full" => must(rt, at, !self.gate.offers()),
            "last" => must(rt, at, self.gate.last_words()),
            _ => self.on_stream(rt, at, call, rest),
        }
    }

    fn line(&mut self, rt: &impl Abort, row: &str, line: &str) {
        let at = At { row, line };
        let (call, rest) = cut(line, " ");
        match call {
            "came" => self.come(rt, at, rest),
            "sent" => self.sent(rt, at, rest),
            "look" => same(rt, at, self.look(rt).as_str(), rest),
            "brought" => self.brought(rt, at, rest),
            "mail" => same(rt, at, self.mail().as_str(), rest),
            "act" => same(rt, at, self.act().as_str(), rest),
            _ => self.on_link(rt, at, call, rest),
        }
    }

    fn lines(&mut self, rt: &impl Abort, row: &str, lines: &str) {
        for line in lines.lines() {
            self.line(rt, row, line);
        }
    }
}

/// Plays the lines of a row behind those of its opening.
fn play(rt: &impl Abort, alloc: Global, row: &str, lines: &str) {
    let mut life = Life::new(rt, alloc);
    life.lines(rt, row, text_of(OPENING));
    life.lines(rt, row, lines);
}

#[test]
fn links_to_gateways_live_as_the_standards_say(rt: HostRuntime) {
    for row in text_of(LIVES).split("\nrow ") {
        let (row, lines) = cut(row, "\n");
        play(&rt, rt.alloc(), row, lines);
    }
}
