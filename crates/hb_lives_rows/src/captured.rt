//! Lives of a captured link, number 7, beside what is held; its upstream is number 8, its stream number 1 of the link 9 to a gateway. A
//! method for each call of it, since the proof of a function with many calls takes long.

use crate::captured_rows::{LIVES, RELAYS};
use crate::resources::{apply, nothing_held};
use crate::words::{
    At, cut, must, number_of, octets_of, put_to, same, text_of, turned_in, words_of_act,
    words_of_note,
};
use hb_base::{Cause, Door, Note, read_target};
use hb_held::{Held, OwnDoors};
use hb_relay::{Relay, Routes};
use std::alloc::Global;
use std::process::Abort;

/// A link, what is held beside it, and the counts of all links.
#[derive(Drop)]
struct Life {
    alloc: Global,
    relay: Relay,
    routes: Routes,
    held: Held,
}

/// The calls of the link itself.
impl Life {
    /// A link at this door of a node with these doors, which was accepted or turned away.
    fn new(rt: &impl Abort, alloc: Global, doors: OwnDoors, door: Door, turned: bool) -> Life {
        let relay = if turned {
            Relay::turned_away(alloc, door, 7)
        } else {
            Relay::accepted(alloc, door, 7)
        };
        Life {
            alloc,
            relay: relay.ok().expect(rt, "memory"),
            routes: Routes::new(alloc, 15008),
            held: nothing_held(rt, alloc, doors),
        }
    }

    /// A response comes.
    fn apply(&mut self, rt: &impl Abort, words: &str) {
        apply(rt, self.alloc, &mut self.held, words);
    }

    fn judge(&mut self) -> Option<Note> {
        self.relay.judge(&self.held)
    }

    fn act(&mut self) -> String {
        words_of_act(self.alloc, self.relay.next_act())
    }

    fn come(&mut self, rt: &impl Abort, at: At, bytes: &[u8]) -> Option<Note> {
        must(rt, at, bytes.len() <= self.relay.wants());
        self.relay.take_bytes(&self.held, &mut self.routes, bytes)
    }

    /// These bytes wait for it, and are written.
    fn sent(&mut self, rt: &impl Abort, at: At, bytes: &[u8]) -> Option<Note> {
        let output = self.relay.output();
        let n = output.len();
        must(rt, at, output == bytes);
        self.relay.wrote(n, &mut self.routes)
    }

    fn ended(&mut self) -> Option<Note> {
        self.relay.ended(&mut self.routes)
    }

    fn broke(&mut self, begun: u64) -> Option<Note> {
        self.relay.broke(begun, &mut self.routes)
    }

    /// The run ends, and no connection is open any more.
    fn stopped(&mut self, begun: u64) -> Option<Note> {
        self.routes.forget(self.alloc);
        self.relay.stopped(Cause::Stopped, begun)
    }
}

/// The calls of its upstream.
impl Life {
    fn dialled(&mut self, rt: &impl Abort, at: At) {
        self.relay.dialled(8);
        must(rt, at, self.relay.upstream() == 8);
    }

    fn dial_failed(&mut self) -> Option<Note> {
        self.relay.dial_failed(&mut self.routes)
    }

    fn up_opened(&mut self) -> Option<Note> {
        Some(self.relay.up_opened())
    }

    fn up_come(&mut self, rt: &impl Abort, at: At, bytes: &[u8]) {
        must(rt, at, bytes.len() <= self.relay.up_wants());
        self.relay.up_bytes(bytes);
    }

    /// These bytes wait for it, and so many of them are written.
    fn up_sent(&mut self, rt: &impl Abort, at: At, words: &str) -> Option<Note> {
        let (bytes, count) = cut(words, " of them ");
        let n = number_of(rt, count) as usize;
        let output = self.relay.up_output();
        must(rt, at, output == bytes.as_bytes());
        must(rt, at, n <= output.len());
        self.relay.up_wrote(n, &mut self.routes)
    }

    fn up_ended(&mut self) -> Option<Note> {
        self.relay.up_ended(&mut self.routes)
    }

    fn up_broke(&mut self) -> Option<Note> {
        self.relay.up_broke(&mut self.routes)
    }
}

/// The calls of its stream.
impl Life {
    /// The gateway and the authority of the stream that is wanted; `nothing` where none is.
    fn wanted(&self) -> String {
        let mut words = String::new(self.alloc);
        match self.relay.wanted() {
            None => {
                let _ = words.push_str("nothing");
            }
            Some((key, authority)) => {
                put_to(&mut words, self.alloc, key.gateway);
                let _ = words.push_str(" ");
                put_to(&mut words, self.alloc, authority);
            }
        }
        words
    }

    fn asked(&mut self, rt: &impl Abort, at: At) {
        must(rt, at, self.relay.stream().is_none());
        self.relay.asked(9, 1);
        must(rt, at, self.relay.stream() == Some((9, 1)));
        must(rt, at, !self.relay.lives_on_stream());
    }

    fn lacks_room(&mut self) -> Option<Note> {
        self.relay.lacks_room(&mut self.routes)
    }

    fn stream_opened(&mut self, end: bool) -> Option<Note> {
        Some(self.relay.stream_opened(end))
    }

    fn on_stream(&self, rt: &impl Abort, at: At) {
        must(rt, at, self.relay.lives_on_stream());
    }

    /// These bytes wait for the stream, and so many of them are put.
    fn put(&mut self, rt: &impl Abort, at: At, words: &str) {
        let (bytes, count) = cut(words, " of them ");
        let n = number_of(rt, count) as usize;
        must(rt, at, self.relay.has_waiting());
        let waiting = self.relay.waiting();
        must(rt, at, waiting == bytes.as_bytes());
        must(rt, at, n <= bytes.as_bytes().len());
        self.relay.put(n);
    }

    fn finished(&mut self, rt: &impl Abort, at: At) {
        must(rt, at, self.relay.may_finish());
        self.relay.finished();
    }

    fn complete(&mut self, rt: &impl Abort, at: At, begun: u64) -> Option<Note> {
        must(rt, at, self.relay.may_complete());
        Some(self.relay.complete(begun, &mut self.routes))
    }

    /// It failed for `reset CODE N` or `up refused CODE N`, when so many bytes had begun to go.
    fn failed(&mut self, rt: &impl Abort, call: &str, rest: &str) -> Option<Note> {
        let (code, begun) = cut(rest, " ");
        let code = u32::try_from(number_of(rt, code)).expect(rt, "a code of 32 bits");
        let cause = if call == "reset" {
            Cause::PeerReset(code)
        } else {
            Cause::UpRefused(code)
        };
        let begun = number_of(rt, begun);
        self.relay.stream_failed(cause, begun, &mut self.routes)
    }
}

/// The lines.
impl Life {
    /// All acts that are due, in words.
    fn acts(&mut self) -> String {
        let mut acts = String::new(self.alloc);
        for _ in 0..4 {
            let act = self.act();
            if act.as_bytes() == b"none".as_slice() {
                break;
            }
            let comma = if acts.is_empty() { "" } else { ", " };
            let _ = acts.push_str(comma);
            let _ = acts.push_str(act.as_str());
        }
        acts
    }

    /// A line on what the link and its stream may.
    fn checked(&mut self, rt: &impl Abort, at: At, call: &str, rest: &str) {
        match call {
            "wants" => same(rt, at, self.wanted().as_str(), rest),
            "reads" => must(rt, at, self.relay.wants() as u64 == number_of(rt, rest)),
            "owes" => must(rt, at, self.relay.owed() == number_of(rt, rest)),
            "waits" => must(rt, at, !self.relay.may_finish()),
            "open" => must(rt, at, !self.relay.may_complete()),
            _ => {
                must(rt, at, call == "left");
                must(rt, at, self.relay.stream().is_none());
            }
        }
    }

    /// A line on its stream that makes no note.
    fn streamed(&mut self, rt: &impl Abort, at: At, call: &str, rest: &str) {
        match call {
            "asked" => self.asked(rt, at),
            "puts" => self.put(rt, at, rest),
            "brings" => self.relay.stream_bytes(rest.as_bytes()),
            "credited" => self.relay.credited(),
            "finished" => self.finished(rt, at),
            "closed" => self.relay.stream_ended(),
            _ => self.checked(rt, at, call, rest),
        }
    }

    /// A line on its acts, or a call on its upstream, which makes no note.
    fn called(&mut self, rt: &impl Abort, at: At, call: &str, rest: &str) {
        match call {
            "dialled" => self.dialled(rt, at),
            "upcame" => self.up_come(rt, at, rest.as_bytes()),
            "dial" => same(rt, at, self.act().as_str(), at.line),
            "act" => same(rt, at, self.acts().as_str(), rest),
            _ => self.streamed(rt, at, call, rest),
        }
    }

    /// A line on its stream, and the note that it makes.
    fn of_stream(&mut self, rt: &impl Abort, at: At, call: &str, rest: &str) -> Option<Note> {
        match call {
            "roomless" => self.lacks_room(),
            "opened" => {
                let note = self.stream_opened(rest == "end");
                self.on_stream(rt, at);
                note
            }
            "complete" => self.complete(rt, at, number_of(rt, rest)),
            "refused" | "reset" => self.failed(rt, call, rest),
            _ => {
                self.called(rt, at, call, rest);
                None
            }
        }
    }

    /// A line on its upstream, or on what is held, and the note that it makes.
    fn of_upstream(&mut self, rt: &impl Abort, at: At, call: &str, rest: &str) -> Option<Note> {
        match call {
            "undialled" => self.dial_failed(),
            "upopened" => self.up_opened(),
            "upended" => self.up_ended(),
            "upbroke" => self.up_broke(),
            "upsent" => self.up_sent(rt, at, rest),
            "update" => {
                self.apply(rt, rest);
                self.judge()
            }
            _ => self.of_stream(rt, at, call, rest),
        }
    }

    /// The header of the front comes in two pieces, with bytes behind it.
    fn front(&mut self, rt: &impl Abort, at: At, behind: &str) -> Option<Note> {
        let mut octets = octets_of(rt, self.alloc, "CAPTURED_FRONT");
        octets
            .extend_from_slice(behind.as_bytes())
            .expect(rt, "memory");
        let (first, second) = octets.as_slice().split_at(octets.len().min(20));
        let early = self.come(rt, at, first);
        must(rt, at, early.is_none());
        self.come(rt, at, second)
    }

    /// A line on the link, and the note that it makes.
    fn noted(&mut self, rt: &impl Abort, at: At, call: &str, rest: &str) -> Option<Note> {
        match call {
            "front" => self.front(rt, at, rest),
            "came" => self.come(rt, at, rest.as_bytes()),
            "sent" => self.sent(rt, at, rest.as_bytes()),
            "ended" => self.ended(),
            "broke" => self.broke(number_of(rt, rest)),
            "stopped" => self.stopped(number_of(rt, rest)),
            _ => self.of_upstream(rt, at, call, rest),
        }
    }

    /// A line, and behind ` = ` the note that it makes.
    fn line(&mut self, rt: &impl Abort, row: &str, line: &str) {
        let at = At { row, line };
        let (words, wanted) = cut(line, " = ");
        let (call, rest) = cut(words, " ");
        match self.noted(rt, at, call, rest) {
            None => must(rt, at, wanted.is_empty()),
            Some(note) => same(rt, at, words_of_note(self.alloc, &note).as_str(), wanted),
        }
    }

    fn lines(&mut self, rt: &impl Abort, row: &str, lines: &str) {
        for named in lines.lines() {
            for line in lines_of(named).lines() {
                self.line(rt, row, line);
            }
        }
    }
}

/// The doors of a node that words name.
fn doors_in(rt: &impl Abort, words: &str) -> OwnDoors {
    let mut doors = OwnDoors::none();
    for word in words.split(" ") {
        let (door, target) = cut(word, "=");
        if door == "inbound" {
            let target = read_target(target.as_bytes()).ok().expect(rt, "a target");
            doors.inbound = Some(target);
        }
    }
    doors
}

/// The link of a row, beside what its first line says.
fn begun(rt: &impl Abort, alloc: Global, row: &str, turned: bool) -> Life {
    let (_, head) = cut(row, ": ");
    let (door, words) = cut(head, " ");
    let door = if door == "plain" {
        Door::Plain
    } else {
        Door::Outbound
    };
    let mut life = Life::new(rt, alloc, doors_in(rt, words), door, turned);
    for word in words.split_whitespace() {
        if !word.contains("=") {
            life.apply(rt, word);
        }
    }
    life
}

/// The lines that a line stands for.
fn lines_of(line: &str) -> &str {
    match line {
        "relays" => text_of(RELAYS),
        _ => line,
    }
}

/// Plays the lines of a row.
fn play(rt: &impl Abort, alloc: Global, row: &str, lines: &str) {
    let (turned, lines) = turned_in(lines);
    let mut life = begun(rt, alloc, row, turned);
    life.lines(rt, row, lines);
}

#[test]
fn captured_links_live_as_the_rows_say(rt: HostRuntime) {
    for row in text_of(LIVES).split("\nrow ") {
        let (row, lines) = cut(row, "\n");
        play(&rt, rt.alloc(), row, lines);
    }
}
