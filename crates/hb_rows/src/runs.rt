//! One run over memory, compared whole. A test ends where memory is wanting.

use hb_audit::{Audits, MemAudit};
use hb_base::{MemSink, MemSource};
use hb_cli::run;
use hb_turns::Keep;
use hb_world::ScriptWorld;
use std::alloc::Global;
use std::process::Abort;

/// Which calls of a run fail, counted from 1, or 0 for none: a take of the input, a put of the output, and a put of the
/// error text; and the room of the latter two.
#[derive(Clone, Copy)]
pub struct Failing {
    pub take: u64,
    pub put: u64,
    pub room: usize,
    pub err_put: u64,
    pub err_room: usize,
}

/// No call fails, and there is room for each report.
pub const NOTHING_FAILS: Failing = Failing {
    take: 0,
    put: 0,
    room: 65_536,
    err_put: 0,
    err_room: 1024,
};

fn text_of(bytes: &[u8]) -> &str {
    std::str::from_utf8(bytes).unwrap_or("no text")
}

/// The words that a name stands for, or the word itself.
fn words_named(name: &str) -> &str {
    match name {
        "CHECK" => "check --node n1 10.0.0.9 spiffe://cluster.local/ns/a/sa/c 10.0.0.7:8080",
        "OPEN" => "check --node n1 10.0.0.9 none 10.0.0.7:8080",
        word => word,
    }
}

/// Words as a program is given them, of a text with a blank between two of them.
fn words_of(rt: &impl Abort, alloc: Global, text: &str) -> Vec<String> {
    let mut words = Vec::new(alloc);
    for name in text.split(' ') {
        for word in words_named(name).split(' ') {
            let word = String::from_str(alloc, word).expect(rt, "memory");
            words.push(word).expect(rt, "memory");
        }
    }
    words
}

/// A status, and the output and the error text, each as a Rust literal.
fn told(rt: &impl Abort, alloc: Global, status: u8, out: &[u8], err: &[u8]) -> String {
    let out = text_of(out);
    let err = text_of(err);
    format!(in alloc; "{status} {out:?} {err:?}").expect(rt, "memory")
}

/// A run over an input, some of whose calls fail: its status, and all that it wrote.
pub fn told_of(
    rt: &impl Abort,
    alloc: Global,
    words: &str,
    input: &[u8],
    failing: Failing,
) -> String {
    let words = words_of(rt, alloc, words);
    let mut source = MemSource::over(alloc, input, &[failing.take]).expect(rt, "memory");
    let mut out = MemSink::new(alloc, failing.room, &[failing.put]).expect(rt, "memory");
    let mut err = MemSink::new(alloc, failing.err_room, &[failing.err_put]).expect(rt, "memory");
    let status = run(
        alloc,
        words.as_slice(),
        &mut source,
        &mut out,
        &mut err,
        &mut Keep::all(alloc),
        &mut Audits::<MemAudit>::none(alloc),
        &mut ScriptWorld::new(alloc),
        &mut ScriptWorld::new(alloc),
    );
    told(rt, alloc, status, out.as_slice(), err.as_slice())
}
