//! Steps in words, and what they are answered. `flow_rows` says how they are written.

use crate::moves::{cut, number_or};
use hb_flow::Flow;
use hb_windows::Overrun;
use std::alloc::Global;
use std::process::Abort;

/// What a step is answered.
enum Answer {
    Done(bool),
    Octets(Option<u32>),
    Limit(i64),
    Refused(Overrun),
}

fn answer_of(outcome: Result<(), Overrun>) -> Answer {
    match outcome {
        Ok(()) => Answer::Done(true),
        Err(fault) => Answer::Refused(fault),
    }
}

fn open(flow: &mut Flow, stream: u32) -> Answer {
    Answer::Done(flow.open(stream).is_ok())
}

fn close(flow: &mut Flow, stream: u32) -> Answer {
    flow.close(stream);
    Answer::Done(true)
}

fn send(flow: &mut Flow, stream: u32, n: u32) -> Answer {
    if n > flow.sendable(stream) {
        return Answer::Done(false);
    }
    flow.spend(stream, n);
    Answer::Done(true)
}

fn send_and_take_back(flow: &mut Flow, stream: u32, n: u32) -> Answer {
    let sendable = flow.sendable(stream);
    if n == 0 || n > sendable {
        return Answer::Done(false);
    }
    flow.spend(stream, n);
    flow.give_back(stream, n);
    Answer::Done(true)
}

fn grant(flow: &mut Flow, stream: Option<u32>, n: u32, unbegun: u32) -> Answer {
    answer_of(match stream {
        Some(stream) => flow.grant_stream(stream, n, unbegun),
        None => flow.grant(n, unbegun),
    })
}

fn resize(flow: &mut Flow, stream: Option<u32>, n: u32, unbegun: u32) -> Answer {
    if n > 2_147_483_647 {
        return Answer::Done(false);
    }
    answer_of(flow.resize(n, stream.unwrap_or(0), unbegun))
}

fn take(flow: &mut Flow, stream: Option<u32>, n: u32) -> Answer {
    answer_of(match stream {
        Some(stream) => flow.take_stream(stream, n),
        None => flow.take(n),
    })
}

fn take_and_owe(flow: &mut Flow, n: u32) -> Answer {
    match flow.take(n) {
        Ok(()) => {
            flow.owe(n);
            Answer::Done(true)
        }
        Err(fault) => Answer::Refused(fault),
    }
}

fn owe(flow: &mut Flow, stream: u32, n: u32) -> Answer {
    if n > flow.creditable(stream) {
        return Answer::Done(false);
    }
    flow.owe_stream(stream, n);
    Answer::Done(true)
}

fn use_up(flow: &mut Flow, stream: Option<u32>, n: u32) -> Answer {
    match stream {
        Some(stream) => owe(flow, stream, n),
        None => take_and_owe(flow, n),
    }
}

fn due(flow: &mut Flow, stream: Option<u32>) -> Answer {
    Answer::Octets(match stream {
        Some(stream) => flow.due_stream(stream),
        None => flow.due(),
    })
}

/// Makes a step.
fn make(flow: &mut Flow, letter: u8, stream: Option<u32>, n: u32, unbegun: u32) -> Answer {
    let on = stream.unwrap_or(0);
    match letter {
        b'o' => open(flow, on),
        b'c' => close(flow, on),
        b's' => send(flow, on, n),
        b'b' => send_and_take_back(flow, on, n),
        b'g' => grant(flow, stream, n, unbegun),
        b'z' => resize(flow, stream, n, unbegun),
        b't' => take(flow, stream, n),
        b'u' => use_up(flow, stream, n),
        b'd' => due(flow, stream),
        b'r' => Answer::Octets(Some(flow.sendable(on))),
        b'l' => Answer::Limit(flow.size_limit(on, unbegun)),
        b'k' => Answer::Octets(Some(flow.creditable(on))),
        _ => Answer::Done(false),
    }
}

fn tell(rt: &impl Abort, alloc: Global, answer: Answer) -> String {
    let told = match answer {
        Answer::Done(true) => format!(in alloc; "ok"),
        Answer::Done(false) => format!(in alloc; "no"),
        Answer::Octets(None) => format!(in alloc; "none"),
        Answer::Octets(Some(n)) => format!(in alloc; "{n}"),
        Answer::Limit(size) => format!(in alloc; "{size}"),
        Answer::Refused(fault) => format!(in alloc; "{}+{}", fault.held, fault.asked),
    };
    told.ok().expect(rt, "memory")
}

/// Makes the step of a word, and compares what it is answered.
fn play_word(rt: &impl Abort, alloc: Global, flow: &mut Flow, line: &str, word: &str) {
    let (made, want) = cut(word, "=");
    let (made, unbegun) = cut(made, "+");
    let (made, n) = cut(made, "/");
    let (letter, stream) = cut(made, "@");
    let letter = *letter.as_bytes().first().expect(rt, "a letter");
    let on = if stream.is_empty() {
        None
    } else {
        Some(number_or(rt, stream, 0))
    };
    let answer = make(
        flow,
        letter,
        on,
        number_or(rt, n, 0),
        number_or(rt, unbegun, 0),
    );
    let told = tell(rt, alloc, answer);
    assert!(rt;
        told.as_bytes() == want.as_bytes(),
        "{line}: {word}: {told}"
    );
}

/// Makes the steps of each line of a table.
pub fn play_all(rt: &impl Abort, alloc: Global, table: &[u8]) {
    let lines = std::str::from_utf8(table).ok().expect(rt, "text");
    for line in lines.lines() {
        if !line.starts_with("#") {
            play(rt, alloc, line);
        }
    }
}

fn play(rt: &impl Abort, alloc: Global, line: &str) {
    let mut flow = Flow::new(alloc);
    for word in line.split(' ') {
        play_word(rt, alloc, &mut flow, line, word);
    }
}
