//! Lives of a node with its link to the control plane. Each call of the node stands in a small function without a contract, so that a
//! proof has what the call says only there.

use crate::node_rows::LIVES;
use crate::resources::text;
use crate::words::{At, cut, must, number_of, octets_of, put_close, same, text_of};
use hb_base::{Cause, Why, read_target};
use hb_held::OwnDoors;
use hb_model::{Act, Limits, NodeConfig};
use hb_node::{NoJudge, Node};
use std::alloc::Global;
use std::process::Abort;

fn config(rt: &impl Abort, alloc: Global) -> NodeConfig {
    NodeConfig {
        id: text(rt, alloc, b"z1"),
        discovery: read_target(b"10.0.0.1:15010").ok().expect(rt, "a target"),
        network: text(rt, alloc, b""),
        node: text(rt, alloc, b"n1"),
        doors: OwnDoors::none(),
        hbone_port: 15008,
        limits: Limits {
            links: 1024,
            tunnels: 4096,
        },
    }
}

/// The words of an act.
fn words_of(alloc: Global, act: Option<Act>) -> String {
    let mut words = String::new(alloc);
    match act {
        None => {
            let _ = words.push_str("none");
        }
        Some(Act::Dial { .. }) => {
            let _ = words.push_str("dial");
        }
        Some(Act::Close { link, cause }) => put_close(&mut words, link, cause),
    }
    words
}

#[derive(Drop)]
struct Life {
    alloc: Global,
    node: Node,
}

/// The calls of the node.
impl Life {
    fn new(rt: &impl Abort, alloc: Global) -> Life {
        let config = config(rt, alloc);
        Life {
            alloc,
            node: Node::new(alloc, config).ok().expect(rt, "memory"),
        }
    }

    fn act(&mut self) -> String {
        words_of(self.alloc, self.node.next_act())
    }

    fn dialled(&mut self, rt: &impl Abort, link: Option<u64>) {
        let done = self.node.dialled(Why::Discovery, link);
        done.ok().expect(rt, "memory");
    }

    fn come(&mut self, rt: &impl Abort, at: At, link: u64, octets: &[u8]) {
        must(rt, at, octets.len() <= self.node.wants(link));
        let took = self.node.take_bytes(link, octets, &mut NoJudge);
        took.ok().expect(rt, "memory");
    }

    /// These octets are all that waits, and at most so many of them are written.
    fn sent(&mut self, rt: &impl Abort, at: At, link: u64, octets: &[u8], most: usize) {
        let output = self.node.output(link);
        let n = output.len().min(most);
        must(rt, at, output == octets);
        self.node.wrote(link, n);
    }

    fn link_is(&self, rt: &impl Abort, at: At, number: &str) {
        match self.node.number() {
            None => must(rt, at, number == "none"),
            Some(link) => must(rt, at, link == number_of(rt, number)),
        }
    }
}

/// The lines.
impl Life {
    /// A line that ends with octets.
    fn with_octets(&mut self, rt: &impl Abort, at: At, call: &str, link: u64, words: &str) {
        let (words, most) = cut(words, " of them ");
        let octets = octets_of(rt, self.alloc, words);
        match call {
            "came" => self.come(rt, at, link, octets.as_slice()),
            "sent" => self.sent(rt, at, link, octets.as_slice(), usize::MAX),
            _ => {
                must(rt, at, call == "part");
                let most = number_of(rt, most) as usize;
                self.sent(rt, at, link, octets.as_slice(), most);
            }
        }
    }

    /// A line on a link.
    fn on_link(&mut self, rt: &impl Abort, at: At, call: &str, rest: &str) {
        let (number, words) = cut(rest, " ");
        let link = number_of(rt, number);
        match call {
            "dialled" => self.dialled(rt, Some(link)),
            "opened" => self.node.opened(link),
            "ended" => self.node.ended(link),
            "broke" => self.node.broke(link),
            "reads" => must(rt, at, self.node.wants(link) as u64 == number_of(rt, words)),
            _ => self.with_octets(rt, at, call, link, words),
        }
    }

    fn line(&mut self, rt: &impl Abort, row: &str, line: &str) {
        let at = At { row, line };
        let (call, rest) = cut(line, " ");
        match call {
            "act" => same(rt, at, self.act().as_str(), rest),
            "undialled" => self.dialled(rt, None),
            "tick" => self.node.tick(),
            "stopped" => self.node.stop(Cause::Stopped),
            "last" => must(rt, at, self.node.last_words()),
            "idle" => must(rt, at, self.node.is_idle()),
            "link" => self.link_is(rt, at, rest),
            "holds" => must(
                rt,
                at,
                self.node.held().count() as u64 == number_of(rt, rest),
            ),
            _ => self.on_link(rt, at, call, rest),
        }
    }

    fn lines(&mut self, rt: &impl Abort, row: &str, lines: &str) {
        for line in lines.lines() {
            self.line(rt, row, line);
        }
    }
}

/// Plays the lines of a row.
fn play(rt: &impl Abort, alloc: Global, row: &str, lines: &str) {
    let mut life = Life::new(rt, alloc);
    life.lines(rt, row, lines);
}

#[test]
fn a_node_lives_as_the_rows_say(rt: HostRuntime) {
    for row in text_of(LIVES).split("\nrow ") {
        let (row, lines) = cut(row, "\n");
        play(&rt, rt.alloc(), row, lines);
    }
}
