//! One run over memory, compared whole. A test ends where memory is wanting.

use crate::scripts::{USUAL, script_of};
use hb_audit::{Audits, MemAudit};
use hb_base::{MemSink, MemSource};
use hb_cli::run;
use hb_script::read_script;
use hb_turns::Keep;
use hb_world::ScriptWorld;
use std::alloc::Global;
use std::process::Abort;

/// Which calls of a run fail, counted from 1, or 0 for none: a take of the input, and a put of the output; and its room.
#[derive(Clone, Copy)]
pub struct Failing {
    pub take: u64,
    pub put: u64,
    pub room: usize,
}

/// No call fails, and there is room for each report.
pub const NOTHING_FAILS: Failing = Failing {
    take: 0,
    put: 0,
    room: 65_536,
};

/// The input can't be read.
pub const UNREADABLE: Failing = Failing {
    take: 1,
    ..NOTHING_FAILS
};

pub fn text_of(bytes: &[u8]) -> &str {
    std::str::from_utf8(bytes).unwrap_or("no text")
}

/// The words that a name stands for, or the word itself.
fn words_named(name: &str) -> &str {
    match name {
        "USUAL" => USUAL,
        "DOOR" => "--inbound 0.0.0.0:15008",
        word => word,
    }
}

/// Words as a program is given them, of a text with a blank between two of them.
fn words_of(rt: &impl Abort, alloc: Global, text: &str) -> Vec<String> {
    let mut words = Vec::new(alloc);
    for name in text.split(' ') {
        for word in words_named(name).split(' ') {
            let word = String::from_str(alloc, word).expect(rt, "memory");
            words.push(word).expect(rt, "memory");
        }
    }
    words
}

/// A status, and the output and the error text, each as a Rust literal.
pub fn told(rt: &impl Abort, alloc: Global, status: u8, out: &[u8], err: &[u8]) -> String {
    let out = text_of(out);
    let err = text_of(err);
    format!(in alloc; "{status} {out:?} {err:?}").expect(rt, "memory")
}

/// A run over an input and a world, some of whose calls fail: its status, and all that it wrote.
fn told_over(
    rt: &impl Abort,
    alloc: Global,
    words: &str,
    input: &[u8],
    mut world: ScriptWorld,
    failing: Failing,
) -> String {
    let words = words_of(rt, alloc, words);
    let mut source = MemSource::over(alloc, input, &[failing.take]).expect(rt, "memory");
    let mut out = MemSink::new(alloc, failing.room, &[failing.put]).expect(rt, "memory");
    let mut err = MemSink::new(alloc, 1024, &[]).expect(rt, "memory");
    let status = run(
        alloc,
        words.as_slice(),
        &mut source,
        &mut out,
        &mut err,
        &mut Keep::all(alloc),
        &mut Audits::<MemAudit>::none(alloc),
        &mut world,
        &mut ScriptWorld::new(alloc),
    );
    told(rt, alloc, status, out.as_slice(), err.as_slice())
}

/// A run over an input, some of whose calls fail.
pub fn told_of(
    rt: &impl Abort,
    alloc: Global,
    words: &str,
    input: &[u8],
    failing: Failing,
) -> String {
    told_over(rt, alloc, words, input, ScriptWorld::new(alloc), failing)
}

/// A run of `serve` over the world of a script, which stands for the real sockets. The input can't be read.
pub fn served(
    rt: &impl Abort,
    alloc: Global,
    words: &str,
    script: &str,
    failing: Failing,
) -> String {
    let text = script_of(rt, alloc, script);
    let lines = read_script(alloc, text.as_slice())
        .ok()
        .expect(rt, "a script");
    let world = ScriptWorld::over(alloc, lines).expect(rt, "memory");
    let words = format!(in alloc; "serve {words}").expect(rt, "memory");
    told_over(rt, alloc, words.as_str(), b"", world, failing)
}
