//! Calls of a world in words, and what they answer, in words.
//!
//! A call is its name, then its door or link, then the room of a read, the bytes of a write or the cause of a close, which is Done where
//! none stands there. Behind a dial stands for what it is, where it isn't for the control plane. Each listen and dial has the same
//! address. Bytes are written as letters.

use hb_base::{Cause, Door, Ip, Target, Why};
use hb_world::{
    Born, Finished, Glanced, Listened, Looked, Read, Ready, ReadyItem, Waited, World, Wrote,
};
use std::process::Abort;

const ADDRESS: Target = Target {
    ip: Ip::V4(0x0a00_0007),
    port: 8080,
};

/// A text in front of a mark and behind it; the whole text and nothing where it has none.
pub fn cut<'a>(text: &'a str, mark: &str) -> (&'a str, &'a str) {
    text.split_once(mark).unwrap_or((text, ""))
}

pub fn put(told: &mut String, word: &str) {
    let _ = told.push_str(word);
}

pub fn put_number(told: &mut String, number: u64) {
    let _ = write!(told, "{number}");
}

fn put_letters(told: &mut String, octets: &[u8], count: usize) {
    for octet in octets.iter().take(count) {
        let _ = told.push(char::from(*octet));
    }
}

fn number_of(rt: &impl Abort, text: &str) -> u64 {
    text.parse::<u64>().ok().expect(rt, "a number")
}

fn door_of(word: &str) -> Door {
    if word == "inbound" {
        Door::Inbound
    } else if word == "outbound" {
        Door::Outbound
    } else {
        Door::Plain
    }
}

fn why_of(word: &str) -> Why {
    if word == "gateway" {
        Why::Gateway { link: 1 }
    } else if word == "upstream" {
        Why::Upstream { link: 1, stream: 1 }
    } else if word == "plain" {
        Why::Plain { link: 1 }
    } else if word == "direct" {
        Why::Direct { link: 1 }
    } else {
        Why::Discovery
    }
}

fn cause_of(words: &str) -> Cause {
    if words == "broken" {
        Cause::Broken
    } else if words == "gone away" {
        Cause::GoneAway
    } else if words == "stopped" {
        Cause::Stopped
    } else if words == "conn fault 6" {
        Cause::ConnFault(6)
    } else if words == "front fault 3" {
        Cause::FrontFault(3)
    } else {
        Cause::Done
    }
}

fn door_word(door: Door) -> &'static str {
    match door {
        Door::Inbound => "inbound",
        Door::Outbound => "outbound",
        Door::Plain => "plain",
    }
}

fn listened_word(listened: Listened) -> &'static str {
    match listened {
        Listened::Listening => "listening",
        Listened::Failed => "failed",
        Listened::NoMemory => "no memory",
    }
}

fn finished_word(finished: Finished) -> &'static str {
    match finished {
        Finished::Opened => "opened",
        Finished::Balked => "balked",
        Finished::Failed => "failed",
        Finished::NoMemory => "no memory",
    }
}

fn looked_word(looked: Looked) -> &'static str {
    match looked {
        Looked::Fine => "fine",
        Looked::Failed => "failed",
        Looked::NoMemory => "no memory",
    }
}

fn waited_word(waited: Waited) -> &'static str {
    match waited {
        Waited::Woke => "woke",
        Waited::Tick => "tick",
        Waited::Stop => "stop",
        Waited::Failed => "failed",
        Waited::NoMemory => "no memory",
    }
}

fn glanced_word(glanced: Glanced) -> &'static str {
    match glanced {
        Glanced::Woke => "woke",
        Glanced::Tick => "tick",
        Glanced::Failed => "failed",
        Glanced::NoMemory => "no memory",
    }
}

fn tell_born(told: &mut String, born: Born) {
    match born {
        Born::New(link) => put_number(told, link),
        Born::Balked => put(told, "balked"),
        Born::Failed => put(told, "failed"),
        Born::NoMemory => put(told, "no memory"),
    }
}

fn tell_wrote(told: &mut String, wrote: Wrote) {
    match wrote {
        Wrote::Took(count) => put_number(told, count as u64),
        Wrote::Balked => put(told, "balked"),
        Wrote::Failed => put(told, "failed"),
        Wrote::NoMemory => put(told, "no memory"),
    }
}

fn tell_read(told: &mut String, read: Read, octets: &[u8]) {
    match read {
        Read::Got(count) => put_letters(told, octets, count),
        Read::End => put(told, "end"),
        Read::Balked => put(told, "balked"),
        Read::Failed => put(told, "failed"),
        Read::NoMemory => put(told, "no memory"),
    }
}

fn tell_item(told: &mut String, item: ReadyItem) {
    put(told, " ");
    match item {
        ReadyItem::Door(door) => put(told, door_word(door)),
        ReadyItem::Link(link) => put_number(told, link),
    }
}

pub fn tell_items(told: &mut String, items: &[ReadyItem]) {
    for item in items {
        tell_item(told, *item);
    }
}

/// Reads into a buffer of so many octets, at most 16.
fn make_read<W: World>(world: &mut W, told: &mut String, link: u64, room: u64) {
    let mut buffer = [0; 16];
    let into = &mut buffer[..room.clamp(1, 16) as usize];
    let read = world.read(link, into);
    tell_read(told, read, into);
}

fn make_write<W: World>(world: &mut W, told: &mut String, link: u64, letters: &str) {
    let from = letters.as_bytes();
    if !from.is_empty() {
        tell_wrote(told, world.write(link, from));
    }
}

fn make_wait<W: World>(world: &mut W, ready: &mut Ready, told: &mut String) {
    put(told, waited_word(world.wait(ready)));
    tell_items(told, ready.items());
}

fn make_glance<W: World>(world: &mut W, ready: &mut Ready, told: &mut String) {
    put(told, glanced_word(world.glance(ready)));
    tell_items(told, ready.items());
}

/// A call at a door.
fn make_at_door<W: World>(world: &mut W, told: &mut String, name: &str, door: Door) {
    if name == "listen" {
        put(told, listened_word(world.listen(ADDRESS, door)));
    } else {
        tell_born(told, world.accept(door));
    }
}

/// A call on a link.
fn make_at_link<W: World>(
    rt: &impl Abort,
    world: &mut W,
    told: &mut String,
    name: &str,
    link: u64,
    argument: &str,
) {
    if name == "finish" {
        put(told, finished_word(world.finish(link)));
    } else if name == "read" {
        make_read(world, told, link, number_of(rt, argument));
    } else if name == "write" {
        make_write(world, told, link, argument);
    } else if name == "look" {
        put(told, looked_word(world.look(link)));
    } else if name == "shut" {
        world.shut(link);
    } else {
        world.close(link, cause_of(argument));
    }
}

/// Makes a call, and tells what it answers; nothing of a shut or close.
pub fn make_call<W: World>(
    rt: &impl Abort,
    world: &mut W,
    ready: &mut Ready,
    told: &mut String,
    call: &str,
) {
    let (name, arguments) = cut(call, " ");
    let (at, argument) = cut(arguments, " ");
    if name == "wait" {
        make_wait(world, ready, told);
    } else if name == "glance" {
        make_glance(world, ready, told);
    } else if name == "dial" {
        tell_born(told, world.dial(ADDRESS, why_of(at)));
    } else if name == "listen" || name == "accept" {
        make_at_door(world, told, name, door_of(at));
    } else {
        make_at_link(rt, world, told, name, number_of(rt, at), argument);
    }
}
