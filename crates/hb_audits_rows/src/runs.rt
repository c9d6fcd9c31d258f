//! Runs over memory with audits, each compared whole. A test ends where memory is wanting.

use crate::script::script;
use hb_audit::{Audit, Audits};
use hb_base::{MemSink, MemSource};
use hb_cli::run;
use hb_script::read_script;
use hb_turns::Keep;
use hb_world::ScriptWorld;
use std::alloc::Global;
use std::process::Abort;

/// The words of a proxy with a door for tunnels.
const SERVE: &str = "serve --node n1 --id z1 --discovery 10.0.0.1:15010 --inbound 0.0.0.0:15008";

const REPLAY: &str =
    "replay --node n1 --id z1 --discovery 10.0.0.1:15010 --inbound 0.0.0.0:15008 --brief";

fn text_of(bytes: &[u8]) -> &str {
    std::str::from_utf8(bytes).unwrap_or("no text")
}

/// Words as a program is given them, of a text with a blank between two of them.
fn words_of(rt: &impl Abort, alloc: Global, text: &str) -> Vec<String> {
    let mut words = Vec::new(alloc);
    for word in text.split(' ') {
        let word = String::from_str(alloc, word).expect(rt, "memory");
        words.push(word).expect(rt, "memory");
    }
    words
}

/// A run over an input and a world: its status, and all that it wrote, as Rust literals.
fn told_over<A: Audit>(
    rt: &impl Abort,
    alloc: Global,
    words: &str,
    mut source: MemSource,
    mut world: ScriptWorld,
    audits: &mut Audits<A>,
) -> String {
    let words = words_of(rt, alloc, words);
    let mut out = MemSink::new(alloc, 1024, &[]).expect(rt, "memory");
    let mut err = MemSink::new(alloc, 1024, &[]).expect(rt, "memory");
    let status = run(
        alloc,
        words.as_slice(),
        &mut source,
        &mut out,
        &mut err,
        &mut Keep::all(alloc),
        audits,
        &mut world,
        &mut ScriptWorld::new(alloc),
    );
    let out = text_of(out.as_slice());
    let err = text_of(err.as_slice());
    format!(in alloc; "{status} {out:?} {err:?}").expect(rt, "memory")
}

/// A replay of this input.
pub fn replayed<A: Audit>(
    rt: &impl Abort,
    alloc: Global,
    input: &[u8],
    audits: &mut Audits<A>,
) -> String {
    let source = MemSource::over(alloc, input, &[]).expect(rt, "memory");
    told_over(rt, alloc, REPLAY, source, ScriptWorld::new(alloc), audits)
}

/// A run of `serve` over the world of the script, which stands for the real sockets. The input can't be read.
pub fn served<A: Audit>(rt: &impl Abort, alloc: Global, audits: &mut Audits<A>) -> String {
    let text = script(rt, alloc);
    let lines = read_script(alloc, text.as_slice())
        .ok()
        .expect(rt, "a script");
    let world = ScriptWorld::over(alloc, lines).expect(rt, "memory");
    let source = MemSource::over(alloc, b"", &[1]).expect(rt, "memory");
    told_over(rt, alloc, SERVE, source, world, audits)
}
