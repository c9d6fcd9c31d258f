//! How a table writes a script, so that a row is one line: a quote as `'`, a newline as `|`, a carriage return as `^`, an octet
//! that UTF-8 never has as `!`, and 126 opening or closing brackets as `<` and `>`.

use hb_base::{List, Or};
use hb_script::{ScriptFault, put_line, read_script};
use hb_world::Line;
use std::alloc::Global;
use std::process::Abort;

fn push_octets(rt: &impl Abort, octets: &mut Vec<u8>, octet: u8, times: usize) {
    for _ in 0..times {
        octets.push(octet).expect(rt, "memory");
    }
}

fn push_mark(rt: &impl Abort, octets: &mut Vec<u8>, mark: u8) {
    match mark {
        b'\'' => push_octets(rt, octets, b'"', 1),
        b'|' => push_octets(rt, octets, b'\n', 1),
        b'^' => push_octets(rt, octets, b'\r', 1),
        b'!' => push_octets(rt, octets, 0xff, 1),
        b'<' => push_octets(rt, octets, b'[', 126),
        b'>' => push_octets(rt, octets, b']', 126),
        _ => push_octets(rt, octets, mark, 1),
    }
}

/// The octets of a script that is written so.
pub fn script_of(rt: &(impl Abort + AllocGlobal), text: &str) -> Vec<u8> {
    let mut octets = Vec::new(rt.alloc());
    for mark in text.as_bytes() {
        push_mark(rt, &mut octets, *mark);
    }
    octets
}

fn write_lines(rt: &impl Abort, alloc: Global, lines: &List<Line>) -> Vec<u8> {
    let mut out = Vec::new(alloc);
    for line in lines.as_slice() {
        put_line(alloc, line, &mut out).expect(rt, "memory");
        push_octets(rt, &mut out, b'\n', 1);
    }
    out
}

fn tell_octets(told: &mut String, octets: &[u8]) {
    for octet in octets {
        let _ = match octet {
            b'"' => told.push('\''),
            b'\n' => told.push('|'),
            _ => told.push(char::from(*octet)),
        };
    }
}

fn tell_read(
    rt: &impl Abort,
    alloc: Global,
    told: &mut String,
    read: &Result<List<Line>, Or<ScriptFault>>,
) {
    match read {
        Ok(lines) => tell_octets(told, write_lines(rt, alloc, lines).as_slice()),
        Err(Or::Fault(fault)) => {
            let _ = write!(told, "{fault}");
        }
        Err(Or::NoMemory) => {
            let _ = told.push_str("no memory");
        }
    }
}

/// The lines of a script, each written again, or its fault.
pub fn told_of(rt: &(impl Abort + AllocGlobal), text: &str) -> String {
    let mut told = String::new(rt.alloc());
    let script = script_of(rt, text);
    tell_read(
        rt,
        rt.alloc(),
        &mut told,
        &read_script(rt.alloc(), script.as_slice()),
    );
    told
}

/// What is told of a text has to be what is wanted.
pub fn assert_told(rt: &(impl Abort + AllocGlobal), text: &str, want: &str) {
    let told = told_of(rt, text);
    assert!(rt; told.as_str() == want, "{text} told {told} and not {want}");
}
