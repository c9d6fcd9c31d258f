//! Lives of an inbound link, number 7, beside what is held. A method for each call of it, since the proof of a function with many calls
//! takes long.

use crate::inbound_rows::{LIVES, OPENS, SERVES};
use crate::resources::{apply, nothing_held};
use crate::told::Told;
use crate::words::{
    At, cut, must, number_of, octets_of, same, stream_of, text_of, turned_in, words_of_act,
    words_of_note,
};
use hb_base::Cause;
use hb_held::{Held, OwnDoors};
use hb_link::Link;
use std::alloc::Global;
use std::process::Abort;

/// A link, what is held beside it, how many places of tunnels the others take, of how many, and the notes.
#[derive(Drop)]
struct Life {
    alloc: Global,
    link: Link,
    held: Held,
    others: usize,
    limit: usize,
    told: Told,
}

/// The calls of the link itself.
impl Life {
    /// A link that was accepted or turned away.
    fn new(rt: &impl Abort, alloc: Global, turned: bool) -> Life {
        let link = if turned {
            Link::turned_away(alloc, 7)
        } else {
            Link::accepted(alloc, 7)
        };
        let told = Told {
            alloc,
            notes: Vec::new(alloc),
            lost: false,
            at: 0,
        };
        Life {
            alloc,
            link: link.ok().expect(rt, "memory"),
            held: nothing_held(rt, alloc, OwnDoors::none()),
            others: 0,
            limit: 4096,
            told,
        }
    }

    fn update(&mut self, rt: &impl Abort, words: &str) {
        apply(rt, self.alloc, &mut self.held, words);
        let few = self.held.touched_few();
        self.link
            .judge_all(&self.held, few.as_ref(), &mut self.told);
    }

    fn come(&mut self, rt: &impl Abort, at: At, octets: &[u8]) {
        must(rt, at, octets.len() <= self.link.wants());
        self.link.take_bytes(&self.held, self.others, self.limit, octets, &mut self.told);
    }

    /// What waits is written, and is put behind what went.
    fn write(&mut self, rt: &impl Abort, sent: &mut Vec<u8>) {
        let output = self.link.output();
        let n = output.len();
        sent.extend_from_slice(output).expect(rt, "memory");
        self.link.wrote(n, &mut self.told);
    }

    fn ended(&mut self) {
        self.link.ended(&mut self.told);
    }

    fn broke(&mut self) {
        self.link.broke(&mut self.told);
    }

    fn stopped(&mut self) {
        self.link.stopped(Cause::Stopped, &mut self.told);
    }

    fn act(&mut self) -> String {
        words_of_act(self.alloc, self.link.next_act())
    }

    /// The next note that was made, in words; none where none is left.
    fn note(&mut self) -> String {
        let at = self.told.at;
        self.told.at = at.saturating_add(1);
        match self.told.notes.get(at) {
            None => String::new(self.alloc),
            Some(note) => words_of_note(self.alloc, note),
        }
    }

    /// The next upstream that is roused, in words.
    fn roused(&mut self) -> String {
        let mut words = String::new(self.alloc);
        let _ = match self.link.next_roused() {
            None => words.push_str("none"),
            Some(up) => write!(words, "{up}"),
        };
        words
    }
}

/// The calls of its upstreams.
impl Life {
    fn dialled(&mut self, stream: u32, link: u64) {
        self.link.dialled(stream, link);
    }

    fn dial_failed(&mut self, stream: u32) {
        self.link.dial_failed(stream, &mut self.told);
    }

    fn up_opened(&mut self, stream: u32) {
        self.link.up_opened(stream, &mut self.told);
    }

    fn up_come(&mut self, rt: &impl Abort, at: At, stream: u32, octets: &[u8]) {
        must(rt, at, octets.len() <= self.link.up_wants(stream));
        self.link.up_bytes(stream, octets);
    }

    /// These octets wait for it, and so many of them are written.
    fn up_sent(&mut self, rt: &impl Abort, at: At, stream: u32, octets: &[u8], n: usize) {
        let output = self.link.up_output(stream);
        must(rt, at, output == octets);
        must(rt, at, n <= output.len());
        self.link.up_wrote(stream, n, &mut self.told);
    }

    fn up_ended(&mut self, stream: u32) {
        self.link.up_ended(stream, &mut self.told);
    }

    fn up_broke(&mut self, stream: u32) {
        self.link.up_broke(stream, &mut self.told);
    }
}

/// The lines.
impl Life {
    /// All that waits is written, and is this.
    fn sent(&mut self, rt: &impl Abort, at: At, octets: &[u8]) {
        let mut sent = Vec::new(self.alloc);
        for _ in 0..4 {
            self.write(rt, &mut sent);
        }
        must(rt, at, sent.as_slice() == octets);
        must(rt, at, self.link.output().is_empty());
    }

    fn last(&mut self, rt: &impl Abort, at: At, octets: &[u8]) {
        must(rt, at, self.link.last_words());
        self.sent(rt, at, octets);
    }

    /// A line that ends with octets.
    fn with_octets(&mut self, rt: &impl Abort, at: At, call: &str, words: &str) {
        let octets = octets_of(rt, self.alloc, words);
        match call {
            "came" => self.come(rt, at, octets.as_slice()),
            "sent" => self.sent(rt, at, octets.as_slice()),
            _ => {
                must(rt, at, call == "last");
                self.last(rt, at, octets.as_slice());
            }
        }
    }

    /// A line that ends with the octets of an upstream.
    fn with_bytes(&mut self, rt: &impl Abort, at: At, call: &str, stream: u32, words: &str) {
        let (words, count) = cut(words, " of them ");
        let octets = octets_of(rt, self.alloc, words);
        match call {
            "upcame" => self.up_come(rt, at, stream, octets.as_slice()),
            _ => {
                must(rt, at, call == "upsent");
                let n = number_of(rt, count) as usize;
                self.up_sent(rt, at, stream, octets.as_slice(), n);
            }
        }
    }

    /// A line on the upstream of a stream.
    fn on_stream(&mut self, rt: &impl Abort, at: At, call: &str, rest: &str) {
        let (number, words) = cut(rest, " ");
        let stream = stream_of(rt, number);
        match call {
            "dialled" => self.dialled(stream, number_of(rt, words)),
            "undialled" => self.dial_failed(stream),
            "upopened" => self.up_opened(stream),
            "upended" => self.up_ended(stream),
            "upbroke" => self.up_broke(stream),
            "upreads" => must(
                rt,
                at,
                self.link.up_wants(stream) as u64 == number_of(rt, words),
            ),
            _ => self.with_bytes(rt, at, call, stream, words),
        }
    }

    fn places(&mut self, rt: &impl Abort, words: &str) {
        let (others, limit) = cut(words, " of ");
        self.others = number_of(rt, others) as usize;
        self.limit = number_of(rt, limit) as usize;
    }

    /// A line on the link itself, but for what it tells.
    fn on_link(&mut self, rt: &impl Abort, at: At, call: &str, rest: &str) {
        match call {
            "came" | "sent" | "last" => self.with_octets(rt, at, call, rest),
            "update" => self.update(rt, rest),
            "ended" => self.ended(),
            "broke" => self.broke(),
            "stopped" => self.stopped(),
            _ => self.on_stream(rt, at, call, rest),
        }
    }

    /// A line that sets up the link, or asks how much.
    fn counted(&mut self, rt: &impl Abort, at: At, call: &str, rest: &str) {
        match call {
            "places" => self.places(rt, rest),
            "rouse" => self.link.rouse_all(),
            "load" => must(rt, at, self.link.load() as u64 == number_of(rt, rest)),
            "reads" => must(rt, at, self.link.wants() as u64 == number_of(rt, rest)),
            _ => self.on_link(rt, at, call, rest),
        }
    }

    fn line(&mut self, rt: &impl Abort, row: &str, line: &str) {
        let at = At { row, line };
        let (call, rest) = cut(line, " ");
        match call {
            "act" => same(rt, at, self.act().as_str(), rest),
            "note" => same(rt, at, self.note().as_str(), rest),
            "roused" => same(rt, at, self.roused().as_str(), rest),
            _ => self.counted(rt, at, call, rest),
        }
    }

    fn lines(&mut self, rt: &impl Abort, row: &str, lines: &str) {
        for named in lines.lines() {
            for line in lines_of(named).lines() {
                self.line(rt, row, line);
            }
        }
    }

    /// Each note was asked for.
    fn finish(&self, rt: &impl Abort, row: &str) {
        let at = At {
            row,
            line: "its end",
        };
        must(rt, at, self.told.notes.len() == self.told.at);
        must(rt, at, !self.told.lost);
    }
}

/// The lines that a line stands for.
fn lines_of(line: &str) -> &str {
    match line {
        "serves" => text_of(SERVES),
        "opens" => text_of(OPENS),
        _ => line,
    }
}

/// Plays the lines of a row.
fn play(rt: &impl Abort, alloc: Global, row: &str, lines: &str) {
    let (turned, lines) = turned_in(lines);
    let mut life = Life::new(rt, alloc, turned);
    life.lines(rt, row, lines);
    life.finish(rt, row);
}

#[test]
fn inbound_links_live_as_the_rows_say(rt: HostRuntime) {
    for row in text_of(LIVES).split("\nrow ") {
        let (row, lines) = cut(row, "\n");
        play(&rt, rt.alloc(), row, lines);
    }
}
