//! Sources and sinks.

use crate::tables::{assert_told, fields_of, number, put, tell, tell_debug};
use hb_base::{MemSink, MemSource, Sink, Source, StdSink, StdSource, put_all, read_all};
use std::io::{Error, ErrorKind, Read, Write};
use std::process::Abort;

/// A reader and writer that answers in turn as its letters say, and then nothing but faults: a digit is a
/// number of bytes, `i` an interrupt, and any other letter a fault.
#[derive(Drop)]
struct Answers<'a>(&'a [u8]);

impl Answers<'_> {
    fn next(&mut self) -> Result<usize, Error> {
        let Some((letter, rest)) = self.0.split_first() else {
            return Err(Error::from(ErrorKind::Other));
        };
        self.0 = rest;
        match *letter {
            b'0'..=b'9' => Ok(usize::from(*letter - b'0')),
            b'i' => Err(Error::from(ErrorKind::Interrupted)),
            _ => Err(Error::from(ErrorKind::Other)),
        }
    }
}

impl Read for Answers<'_> {
    fn read(&mut self, into: &mut [u8]) -> Result<usize, Error> {
        Ok(self.next()?.min(into.len()))
    }
}

impl Write for Answers<'_> {
    fn write(&mut self, from: &[u8]) -> Result<usize, Error> {
        Ok(self.next()?.min(from.len()))
    }

    fn flush(&mut self) -> Result<(), Error> {
        Ok(())
    }
}

/// What a source answers to so many takes of at most three bytes.
fn tell_takes<S: Source>(told: &mut String, source: &mut S, count: usize) {
    let mut buffer = [0u8; 3];
    for _ in 0..count {
        tell_debug(told, &source.take(&mut buffer), " ");
    }
}

/// What a sink answers to a put of each of these words.
fn tell_puts<K: Sink>(told: &mut String, sink: &mut K, words: &str) {
    for word in words.split_whitespace() {
        if !word.is_empty() {
            tell_debug(told, &sink.put(word.as_bytes()), " ");
        }
    }
}

/// What a whole read answers: its bytes, or why it stopped.
fn tell_whole<S: Source>(
    rt: &(impl Abort + AllocGlobal),
    told: &mut String,
    source: &mut S,
    limit: usize,
) {
    match read_all(rt.alloc(), source, limit) {
        Ok(bytes) => tell_debug(told, &bytes.as_slice(), " "),
        Err(stop) => tell(told, &stop, " "),
    }
}

/// Whether a whole text is put.
fn tell_whole_put<K: Sink>(told: &mut String, sink: &mut K, text: &[u8]) {
    let word = match put_all(sink, text) {
        Ok(()) => "put ",
        Err(_) => "failed ",
    };
    put(told, word);
}

/// A reader's answers, a number of takes, and what they answer.
pub const READERS: &str = "\
i2x0; 3; Got(2) Failed End
# Fifteen interrupts are passed over in one take, and sixteen are a fault.
iiiiiiiiiiiiiii1; 1; Got(1)
iiiiiiiiiiiiiiii1; 2; Failed Got(1)
; 2; Failed Failed";

/// A writer's answers, the words that are put, and what the puts answer.
pub const WRITERS: &str = "\
i2x01; abcd cd cd cd; Took(2) Failed Failed Took(1)
iiiiiiiiiiiiiii1; a; Took(1)
iiiiiiiiiiiiiiii1; a a a; Failed Took(1) Failed";

/// Of a source of `abcde` the take that fails, or 0, how many bytes are allowed, and what the read of all answers.
pub const WHOLE_INPUTS: &str = "\
0; 5; [97, 98, 99, 100, 101]
0; 4; more bytes than allowed
2; 5; a read failed";

pub fn tell_reader(rt: &impl Abort, told: &mut String, row: &str) {
    let (answers, count) = fields_of(rt, row);
    let mut source = StdSource::over(Answers(answers.as_bytes()));
    tell_takes(told, &mut source, number(rt, count));
}

pub fn tell_writer(rt: &impl Abort, told: &mut String, row: &str) {
    let (answers, words) = fields_of(rt, row);
    let mut sink = StdSink::over(Answers(answers.as_bytes()));
    tell_puts(told, &mut sink, words);
}

pub fn tell_whole_input(rt: &(impl Abort + AllocGlobal), told: &mut String, row: &str) {
    let (fails, limit) = fields_of(rt, row);
    let fails = [number(rt, fails) as u64];
    let mut source = MemSource::over(rt.alloc(), b"abcde", &fails).expect(rt, "memory");
    tell_whole(rt, told, &mut source, number(rt, limit));
}

fn tell_sources(rt: &(impl Abort + AllocGlobal), told: &mut String) {
    let mut slice = StdSource::over(b"abcde".as_slice());
    tell_takes(told, &mut slice, 3);
    let mut source = MemSource::over(rt.alloc(), b"abcde", &[2, 4]).expect(rt, "memory");
    tell_takes(told, &mut source, 6);
    let mut whole = StdSource::over(b"abcde".as_slice());
    tell_whole(rt, told, &mut whole, 5);
}

fn tell_sink(rt: &(impl Abort + AllocGlobal), told: &mut String) {
    let mut sink = MemSink::new(rt.alloc(), 4, &[1]).expect(rt, "memory");
    tell_puts(told, &mut sink, "abc abc de e");
    tell_debug(told, &sink.as_slice(), " ");
}

fn tell_whole_puts(rt: &(impl Abort + AllocGlobal), told: &mut String) {
    let mut sink = MemSink::new(rt.alloc(), 4, &[]).expect(rt, "memory");
    tell_whole_put(told, &mut sink, b"abcd");
    tell_whole_put(told, &mut sink, b"");
    tell_whole_put(told, &mut sink, b"e");
    tell_debug(told, &sink.as_slice(), " ");
}

fn tell_written(rt: &(impl Abort + AllocGlobal), told: &mut String) {
    let mut written = Vec::new(rt.alloc());
    tell_whole_put(told, &mut StdSink::over(&mut written), b"abc");
    tell_debug(told, &written.as_slice(), " ");
}

/// What a slice, memory and a vector answer.
const TOLD: &str = "Got(3) Got(2) End Got(3) Failed Got(2) Failed End End [97, 98, 99, 100, 101] \
    Failed Took(3) Took(1) Failed [97, 98, 99, 100] \
    put put failed [97, 98, 99, 100] \
    put [97, 98, 99]";

#[test]
fn sources_and_sinks_of_memory_answer(rt: HostRuntime) {
    let mut told = String::new(rt.alloc());
    tell_sources(&rt, &mut told);
    tell_sink(&rt, &mut told);
    tell_whole_puts(&rt, &mut told);
    tell_written(&rt, &mut told);
    assert_told(&rt, "memory", told.as_str(), TOLD);
}
