//! A world of real sockets, and the other ends of its links. Each call of the world stands in a function of its own.

use crate::octets::{check_far, comes, far, free_port, here, listener, pattern, sum_of, target};
use hb_base::{Cause, Door, Target, Why};
use hb_mio::{Log, MioWorld};
use hb_world::{
    Born, Finished, Glanced, Listened, Looked, Read, Ready, ReadyItem, Waited, World, Wrote,
};
use std::alloc::{AllocError, Global};
use std::io::{self, ErrorKind};
use std::net::{Shutdown, TcpListener, TcpStream};
use std::test::Fail;

/// So often a test waits before it gives up; each wait ends within a second.
const WAITS: u32 = 60;

/// The lines that the world told.
#[derive(Drop)]
struct Lines {
    text: String,
}

impl Log for Lines {
    fn line(&mut self, line: &str) {
        let _ = self.text.push_str(line);
    }

    fn flush(&mut self) {}
}

#[derive(Drop)]
pub struct Play {
    world: MioWorld<HostRuntime, Lines>,
    ready: Ready,
    /// Where the other ends of dialled links listen.
    listener: TcpListener,
    /// The ports of that listener, and of the world's door.
    taken: u16,
    free: u16,
    /// The other end of each link, that of link 1 first; None where it is closed.
    peers: Vec<Option<TcpStream>>,
}

/// What a line tells.
#[derive(Clone, Copy)]
pub enum Told {
    /// A word; none where there is nothing to tell.
    Word(&'static str),
    Counted(&'static str, u64),
    /// How many octets came on a link, the sum of their values, and how it went on.
    Heard(usize, u64, &'static str),
}

impl Play {
    pub fn new(rt: &HostRuntime) -> Result<Play, Fail> {
        let free = free_port(rt)?;
        let (listener, taken) = listener(rt)?;
        let net = rt.clone()?;
        let ready = Ready::new(rt.alloc())?;
        let lines = Lines {
            text: String::new(rt.alloc()),
        };
        Ok(Play {
            world: MioWorld::new(rt.alloc(), net, lines),
            ready,
            listener,
            taken,
            free,
            peers: Vec::new(rt.alloc()),
        })
    }

    fn listen(&mut self, at: Target, door: Door) -> Listened {
        self.world.listen(at, door)
    }

    /// The port of a place: the one that is taken, or the one that is free at first.
    fn port_at(&self, place: &str) -> u16 {
        match place {
            "taken" => self.taken,
            _ => self.free,
        }
    }

    /// Whether the world told this one line alone, of a door at a place, and why nothing listens there.
    fn told_why(&self, alloc: Global, place: &str, text: &str) -> Result<bool, AllocError> {
        let (door, why) = cut(text, " ");
        let port = self.port_at(place);
        let ip = if place == "far" {
            "192.0.2.1"
        } else {
            "127.0.0.1"
        };
        let line = format!(in alloc; "hbone: {door} door {ip}:{port}: {why}\n")?;
        Ok(self.world.log().text.as_str() == line.as_str())
    }

    fn accept(&mut self, door: Door) -> Born {
        self.world.accept(door)
    }

    fn dial(&mut self, port: u16, why: Why) -> Born {
        self.world.dial(target(port), why)
    }

    fn finish(&mut self, link: u64) -> Finished {
        self.world.finish(link)
    }

    /// Reads at most 512 octets. The answer, and the sum of the values of those that came.
    pub fn read(&mut self, link: u64) -> (Read, u64) {
        let mut room = [0u8; 512];
        let answer = self.world.read(link, &mut room);
        match answer {
            Read::Got(n) => (answer, sum_of(room.get(..n).unwrap_or(b""))),
            _ => (answer, 0),
        }
    }

    /// Writes some of these octets, of which there is one at least.
    fn write(&mut self, link: u64, octets: &[u8]) -> Wrote {
        if octets.is_empty() {
            return Wrote::Failed;
        }
        self.world.write(link, octets)
    }

    fn look(&mut self, link: u64) -> Looked {
        self.world.look(link)
    }

    fn shut(&mut self, link: u64) {
        self.world.shut(link);
    }

    fn close_for(&mut self, link: u64, cause: Cause) {
        self.world.close(link, cause);
    }

    pub fn close(&mut self, link: u64) {
        self.close_for(link, Cause::Stopped);
    }

    pub fn wait(&mut self) -> Waited {
        self.world.wait(&mut self.ready)
    }

    pub fn glance(&mut self) -> Glanced {
        self.world.glance(&mut self.ready)
    }

    pub fn is_ready(&self) -> bool {
        !self.ready.items().is_empty()
    }

    /// How often a door is among what is ready.
    fn times_ready(&self, door: Door) -> u64 {
        let mut times = 0u64;
        for item in self.ready.items() {
            if names(item, door) {
                times = times.saturating_add(1);
            }
        }
        times
    }

    /// Waits until a door is ready. Tells how often it is named then.
    fn times_named(&mut self, door: Door) -> u64 {
        for _ in 0..WAITS {
            let _ = self.wait();
            let times = self.times_ready(door);
            if times > 0 {
                return times;
            }
        }
        0
    }

    /// What a dialled link comes to.
    fn await_finish(&mut self, link: u64) -> Finished {
        for _ in 0..WAITS {
            let answer = self.finish(link);
            if !matches!(answer, Finished::Balked) {
                return answer;
            }
            let _ = self.wait();
        }
        Finished::Balked
    }

    /// What looks at a link come to, until one isn't fine.
    fn await_look(&mut self, link: u64) -> Looked {
        for _ in 0..WAITS {
            let answer = self.look(link);
            if !matches!(answer, Looked::Fine) {
                return answer;
            }
            let _ = self.wait();
        }
        Looked::Fine
    }

    /// A link that is dialled and open, whose other end is the next of those that are held.
    pub fn pair(&mut self) -> Born {
        self.pair_for(Why::Discovery)
    }

    /// The same, of a link that is dialled for this.
    fn pair_for(&mut self, why: Why) -> Born {
        let born = self.dial(self.taken, why);
        let Born::New(link) = born else {
            return born;
        };
        let Ok((peer, _)) = self.listener.accept() else {
            return Born::Failed;
        };
        if self.peers.push(Some(peer)).is_err() {
            return Born::NoMemory;
        }
        match self.await_finish(link) {
            Finished::Opened => born,
            _ => Born::Failed,
        }
    }

    /// Reads until the link's end, or until so many octets came.
    pub fn hear(&mut self, link: u64, most: usize) -> Told {
        let mut octets = 0usize;
        let mut sum = 0u64;
        let mut waits = 0u32;
        for _ in 0..u32::MAX {
            if octets >= most || waits >= WAITS {
                break;
            }
            let (answer, more) = self.read(link);
            sum = sum.saturating_add(more);
            match answer {
                Read::Got(n) => octets = octets.saturating_add(n),
                Read::Balked => {
                    let _ = self.wait();
                    waits = waits.saturating_add(1);
                }
                _ => return Told::Heard(octets, sum, word_of_read(answer)),
            }
        }
        Told::Heard(octets, sum, "more")
    }

    /// Takes the other end of a link out of those that are held.
    fn take_peer(&mut self, link: u64) -> Option<TcpStream> {
        match self.peers.get_mut(link.wrapping_sub(1) as usize) {
            Some(peer) => peer.take(),
            None => None,
        }
    }

    /// Holds the other end of a link again.
    fn hold_peer(&mut self, link: u64, peer: TcpStream) {
        if let Some(place) = self.peers.get_mut(link.wrapping_sub(1) as usize) {
            *place = Some(peer);
        }
    }

    /// Writes to a link until so many octets are written or it balks. How many are written then; None where it fails.
    fn write_on(&mut self, link: u64, octets: &[u8], sent: usize, count: usize) -> Option<usize> {
        let mut sent = sent;
        for _ in 0..u32::MAX {
            if sent >= count {
                break;
            }
            match self.write(link, octets.get(sent % 251..).unwrap_or(b"")) {
                Wrote::Took(n) => sent = sent.saturating_add(n),
                Wrote::Balked => break,
                _ => return None,
            }
        }
        Some(sent)
    }

    /// Writes so many octets to a link, whose other end takes them where the link balks. Whether it balked, in words.
    fn send(&mut self, link: u64, count: usize, peer: &mut TcpStream) -> &'static str {
        let octets = pattern();
        let mut taken = 0usize;
        let mut word = "at once";
        for _ in 0..u32::MAX {
            let Some(sent) = self.write_on(link, &octets, taken, count) else {
                return "the link failed";
            };
            if check_far(peer, taken, sent.saturating_sub(taken)).is_err() {
                return "other octets";
            }
            if sent >= count {
                break;
            }
            taken = sent;
            word = "in parts";
            let _ = self.wait();
        }
        word
    }

    /// A line on the other end of a link.
    pub fn at_peer(&mut self, call: &str, link: u64, text: &str) -> &'static str {
        let Some(mut peer) = self.take_peer(link) else {
            return "no such peer";
        };
        let word = match call {
            "leaves" => return "",
            "send" => self.send(link, number_of(text) as usize, &mut peer),
            _ => moved(&mut peer, call, text),
        };
        self.hold_peer(link, peer);
        word
    }

    /// A connection to the world's door.
    fn call(&mut self, rt: &HostRuntime) -> &'static str {
        let Ok(peer) = TcpStream::connect(rt, here(self.free)) else {
            return "a socket failed";
        };
        match self.peers.push(Some(peer)) {
            Ok(()) => "",
            Err(_) => "no memory",
        }
    }

    /// A line that is a call of the world, and what it answers.
    fn world_line(&mut self, call: &str, first: &str, text: &str) -> Told {
        let link = number_of(first);
        match call {
            "listen" => Told::Word(word_of_listen(self.listen(target(self.free), door_of(first)))),
            "taken" => Told::Word(word_of_listen(self.listen(target(self.taken), door_of(first)))),
            "far" => Told::Word(word_of_listen(self.listen(far(self.free), door_of(first)))),
            "accept" => told_of_born(self.accept(door_of(first))),
            "finish" => Told::Word(word_of_finish(self.finish(link))),
            "read" => Told::Word(word_of_read(self.read(link).0)),
            "write" => told_of_write(self.write(link, text.as_bytes())),
            "look" => Told::Word(word_of_look(self.look(link))),
            "shut" => {
                self.shut(link);
                Told::Word("")
            }
            "close" => {
                self.close_for(link, cause_of(text));
                Told::Word("")
            }
            _ => Told::Word("no such line"),
        }
    }

    /// One line of a run, and what it tells.
    pub fn told(&mut self, rt: &HostRuntime, line: &str) -> Told {
        let (call, rest) = cut(line, " ");
        let (first, text) = cut(rest, " ");
        let link = number_of(first);
        match call {
            "call" => Told::Word(self.call(rt)),
            "why" => Told::Word(match self.told_why(rt.alloc(), first, text) {
                Ok(true) => "",
                _ => "another line",
            }),
            "named" => Told::Counted("times", self.times_named(door_of(first))),
            "dial" => told_of_born(self.dial(free_port(rt).unwrap_or(0), Why::Discovery)),
            "pair" => told_of_born(self.pair_for(why_of(first))),
            "waits" => {
                let _ = self.wait();
                Told::Word("")
            }
            "seen" => Told::Word(word_of_look(self.await_look(link))),
            "await" => Told::Word(word_of_finish(self.await_finish(link))),
            "hear" => self.hear(link, number_of(text) as usize),
            "says" | "hears" | "send" | "ends" | "left" | "broken" | "leaves" => {
                Told::Word(self.at_peer(call, link, text))
            }
            _ => self.world_line(call, first, text),
        }
    }
}

/// What the other end of a link does, and a word where that isn't what comes to it.
fn moved(peer: &mut TcpStream, call: &str, text: &str) -> &'static str {
    let well = match call {
        "says" => io::Write::write_all(peer, text.as_bytes()).is_ok(),
        "hears" => comes(peer, text).unwrap_or(false),
        "ends" => peer.shutdown(Shutdown::Write).is_ok(),
        "broken" => is_reset(peer),
        _ => io::Read::read(peer, &mut [0u8; 1]).unwrap_or(1) == 0,
    };
    if well {
        ""
    } else {
        "other octets, or a socket failed"
    }
}

/// Whether what is ready is this door.
fn names(item: &ReadyItem, door: Door) -> bool {
    matches!(
        (item, door),
        (ReadyItem::Door(Door::Inbound), Door::Inbound)
            | (ReadyItem::Door(Door::Outbound), Door::Outbound)
            | (ReadyItem::Door(Door::Plain), Door::Plain)
    )
}

/// Whether the connection of this other end was reset.
fn is_reset(peer: &mut TcpStream) -> bool {
    match io::Read::read(peer, &mut [0u8; 1]) {
        Ok(_) => false,
        Err(error) => error.kind() == ErrorKind::ConnectionReset,
    }
}

/// What a link is dialled for: nothing said, the control plane.
fn why_of(word: &str) -> Why {
    match word {
        "upstream" => Why::Upstream { link: 1, stream: 1 },
        "relay" => Why::Plain { link: 1 },
        "direct" => Why::Direct { link: 1 },
        "gateway" => Why::Gateway { link: 1 },
        _ => Why::Discovery,
    }
}

/// Why a link is closed: nothing said, the run ends.
fn cause_of(word: &str) -> Cause {
    match word {
        "done" => Cause::Done,
        "revoked" => Cause::Revoked,
        "refused" => Cause::Refused(403),
        _ => Cause::Stopped,
    }
}

/// A text in front of a mark and behind it; the whole text and nothing where it has none.
pub fn cut<'a>(text: &'a str, mark: &str) -> (&'a str, &'a str) {
    text.split_once(mark).unwrap_or((text, ""))
}

/// The number that a text is, or 0.
fn number_of(text: &str) -> u64 {
    text.parse::<u64>().unwrap_or(0)
}

fn door_of(word: &str) -> Door {
    match word {
        "inbound" => Door::Inbound,
        "outbound" => Door::Outbound,
        _ => Door::Plain,
    }
}

fn word_of_listen(answer: Listened) -> &'static str {
    match answer {
        Listened::Listening => "listening",
        Listened::Failed => "failed",
        Listened::NoMemory => "no memory",
    }
}

fn told_of_born(answer: Born) -> Told {
    match answer {
        Born::New(link) => Told::Counted("link", link),
        Born::Balked => Told::Word("balked"),
        Born::Failed => Told::Word("failed"),
        Born::NoMemory => Told::Word("no memory"),
    }
}

fn told_of_write(answer: Wrote) -> Told {
    match answer {
        Wrote::Took(count) => Told::Counted("took", count as u64),
        Wrote::Balked => Told::Word("balked"),
        Wrote::Failed => Told::Word("failed"),
        Wrote::NoMemory => Told::Word("no memory"),
    }
}

fn word_of_look(answer: Looked) -> &'static str {
    match answer {
        Looked::Fine => "fine",
        Looked::Failed => "failed",
        Looked::NoMemory => "no memory",
    }
}

fn word_of_finish(answer: Finished) -> &'static str {
    match answer {
        Finished::Opened => "opened",
        Finished::Balked => "balked",
        Finished::Failed => "failed",
        Finished::NoMemory => "no memory",
    }
}

fn word_of_read(answer: Read) -> &'static str {
    match answer {
        Read::Got(_) => "octets",
        Read::End => "end",
        Read::Balked => "balked",
        Read::Failed => "failed",
        Read::NoMemory => "no memory",
    }
}

/// What a line tells, in words.
pub fn words_of(alloc: Global, told: Told) -> Result<String, AllocError> {
    match told {
        Told::Word(word) => String::from_str(alloc, word),
        Told::Counted(word, count) => format!(in alloc; "{word} {count}"),
        Told::Heard(octets, sum, end) => format!(in alloc; "{octets} {sum} {end}"),
    }
}
