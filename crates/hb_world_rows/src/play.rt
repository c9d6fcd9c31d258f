//! Worlds of scripts, and steps of a run.

ghost use Rattle.std.specs.Prelude.{◌≡◌, []};

use crate::calls::{cut, make_call, put, put_number};
use hb_base::List;
use hb_script::{put_entry, read_script};
use hb_world::{Entry, Line, Ready, ScriptWorld};
use std::alloc::Global;
use std::process::Abort;

fn push_octet(rt: &impl Abort, octets: &mut Vec<u8>, octet: u8) {
    octets.push(octet).expect(rt, "memory");
}

/// A script in its table's notation: a quote as `'`, a newline as `|`.
fn script_of(rt: &impl Abort, alloc: Global, text: &str) -> Vec<u8> {
    let mut octets = Vec::new(alloc);
    for mark in text.as_bytes() {
        match mark {
            b'\'' => push_octet(rt, &mut octets, b'"'),
            b'|' => push_octet(rt, &mut octets, b'\n'),
            _ => push_octet(rt, &mut octets, *mark),
        }
    }
    octets
}

/// The lines of a script.
pub fn lines_of(rt: &impl Abort, alloc: Global, text: &str) -> List<Line> {
    let script = script_of(rt, alloc, text);
    read_script(alloc, script.as_slice())
        .ok()
        .expect(rt, "a script")
}

pub fn world_over(rt: &impl Abort, alloc: Global, lines: List<Line>) -> ScriptWorld {
    ScriptWorld::over(alloc, lines).ok().expect(rt, "memory")
}

/// A world that is there before its lines.
pub fn world_loaded(rt: &impl Abort, alloc: Global, lines: List<Line>) -> ScriptWorld {
    let mut world = ScriptWorld::new(alloc);
    world.load(lines).ok().expect(rt, "memory");
    world
}

pub fn empty_ready(rt: &impl Abort, alloc: Global) -> Ready
    ensures { result ≡ [] }
{
    Ready::new(alloc).ok().expect(rt, "memory")
}

fn tell_line(told: &mut String, line: &[u8]) {
    for octet in line {
        let _ = match octet {
            b'\n' => told.push('|'),
            _ => told.push(char::from(*octet)),
        };
    }
}

/// The lines that tell a trace, each ended by `|`.
fn tell_trace(rt: &impl Abort, alloc: Global, told: &mut String, trace: &[Entry]) {
    let mut out = Vec::new(alloc);
    for entry in trace {
        put_entry(alloc, entry, &mut out).expect(rt, "memory");
    }
    tell_line(told, out.as_slice());
}

/// What a call answers; of `entries` how many the trace has, of `trace` the lines that tell it.
fn told_of(
    rt: &impl Abort,
    alloc: Global,
    world: &mut ScriptWorld,
    ready: &mut Ready,
    call: &str,
) -> String {
    let mut told = String::new(alloc);
    if call == "entries" {
        put_number(&mut told, world.entries().len() as u64);
    } else if call == "trace" {
        tell_trace(rt, alloc, &mut told, world.entries());
    } else {
        make_call(rt, world, ready, &mut told, call);
    }
    told
}

/// A step of a run is a call, `=`, and what it has to answer.
pub fn assert_step(
    rt: &impl Abort,
    alloc: Global,
    world: &mut ScriptWorld,
    ready: &mut Ready,
    run: &str,
    step: &str,
) {
    let (call, want) = cut(step, "=");
    let told = told_of(rt, alloc, world, ready, call);
    assert!(rt; told.as_str() == want, "{run}: {step} told {told}");
}

/// Makes the calls of a run.
pub fn play(rt: &impl Abort, alloc: Global, mut world: ScriptWorld, run: &str, steps: &str) {
    let mut ready = empty_ready(rt, alloc);
    for step in steps.split(", ") {
        assert_step(rt, alloc, &mut world, &mut ready, run, step);
    }
}
