//! Moves in words, and what they are answered. `rows` says how they are written.

ghost use Rattle.std.specs.Prelude.{◌≡◌, IsTrue};

use hb_base::{Or, Scope};
use hb_streams::{OpenFault, Role, Sides, Step, StreamFault, Streams};
use std::alloc::Global;
use std::process::Abort;

/// A text in front of a mark and behind it; the whole text and nothing where it has none.
pub fn cut<'a>(text: &'a str, mark: &str) -> (&'a str, &'a str) {
    text.split_once(mark).unwrap_or((text, ""))
}

fn number_of(rt: &impl Abort, text: &str) -> u32 {
    text.parse::<u32>().ok().expect(rt, "a number")
}

/// The number of a text, another one of an empty text.
pub fn number_or(rt: &impl Abort, text: &str, other: u32) -> u32 {
    if text.is_empty() {
        other
    } else {
        number_of(rt, text)
    }
}

/// The moves of a word, and what each has to be answered.
#[derive(Clone, Copy)]
struct Word<'a> {
    line: &'a str,
    text: &'a str,
    letters: &'a [u8],
    first: u32,
    last: u32,
    limit: u32,
    answer: &'a str,
    sides: &'a str,
}

fn word_of<'a>(rt: &impl Abort, line: &'a str, text: &'a str) -> Word<'a> {
    let (made, want) = cut(text, "=");
    let (answer, sides) = cut(want, ":");
    let (made, limit) = cut(made, "/");
    let (letters, streams) = cut(made, "@");
    let (first, last) = cut(streams, "..");
    let first = number_of(rt, first);
    Word {
        line,
        text,
        letters: letters.as_bytes(),
        first,
        last: number_or(rt, last, first),
        limit: number_or(rt, limit, 0),
        answer,
        sides,
    }
}

fn fault_text(fault: StreamFault, stream: u32) -> &'static str {
    match (fault.code, fault.scope) {
        (1, Scope::Connection) => "C1",
        (5, Scope::Connection) => "C5",
        (1, Scope::Stream(of)) if of == stream => "S1",
        (5, Scope::Stream(of)) if of == stream => "S5",
        (7, Scope::Stream(of)) if of == stream => "S7",
        _ => "another error",
    }
}

fn sides_text(sides: Sides) -> &'static str {
    match (sides.own, sides.peer) {
        (true, true) => "op",
        (true, false) => "o-",
        (false, true) => "-p",
        (false, false) => "--",
    }
}

/// The frame type of a letter; 250, which no standard names, for `u`.
fn kind_of(letter: u8) -> u8 {
    match letter.to_ascii_lowercase() {
        b'd' => 0,
        b'h' => 1,
        b'p' => 2,
        b'r' => 3,
        b'w' => 8,
        _ => 250,
    }
}

fn receive(streams: &mut Streams, letter: u8, stream: u32) -> &'static str
    ensures { streams.new.role ≡ streams.old.role }
{
    match streams.on_frame(kind_of(letter), stream, letter.is_ascii_uppercase()) {
        Ok(Step::New) => "new",
        Ok(Step::Goes) => "goes",
        Ok(Step::Ignored) => "ignored",
        Err(Or::Fault(fault)) => fault_text(fault, stream),
        Err(Or::NoMemory) => "no memory",
    }
}

fn open(streams: &mut Streams, stream: u32, limit: u32) -> &'static str
    requires { streams.old.role ≡ Role.Client }
    ensures { streams.new.role ≡ streams.old.role }
{
    match streams.open(limit) {
        Ok(number) if number == stream => "opens",
        Ok(_) => "another number",
        Err(Or::Fault(OpenFault::Full)) => "full",
        Err(Or::Fault(OpenFault::Spent)) => "spent",
        Err(Or::NoMemory) => "no memory",
    }
}

fn send_end(streams: &mut Streams, stream: u32) -> &'static str
    ensures { streams.new.role ≡ streams.old.role }
{
    if !streams.sides(stream).own {
        return "no side to end";
    }
    streams.sent_end(stream);
    "ends"
}

fn send_reset(streams: &mut Streams, stream: u32) -> &'static str
    ensures { streams.new.role ≡ streams.old.role }
{
    let sides = streams.sides(stream);
    if !sides.own && !sides.peer {
        return "nothing to reset";
    }
    streams.sent_reset(stream);
    "resets"
}

/// What a move is answered. Only a client opens streams.
fn make(streams: &mut Streams, client: bool, letter: u8, stream: u32, limit: u32) -> &'static str
    requires { IsTrue client → streams.old.role ≡ Role.Client }
    ensures { streams.new.role ≡ streams.old.role }
{
    match letter {
        b'o' if client => open(streams, stream, limit),
        b'e' => send_end(streams, stream),
        b'x' => send_reset(streams, stream),
        _ => receive(streams, letter, stream),
    }
}

/// Makes a move of a word on a stream, and compares what it is answered and which sides are open then.
fn play_move(
    rt: &impl Abort,
    streams: &mut Streams,
    client: bool,
    word: Word,
    letter: u8,
    stream: u32,
)
    requires { IsTrue client → streams.old.role ≡ Role.Client }
    ensures { streams.new.role ≡ streams.old.role }
{
    let answer = make(streams, client, letter, stream, word.limit);
    let sides = sides_text(streams.sides(stream));
    let as_wanted = answer.as_bytes() == word.answer.as_bytes()
        && sides.as_bytes() == word.sides.as_bytes();
    assert!(rt;
        as_wanted,
        "{}: {} on stream {stream}: {answer}:{sides}",
        word.line, word.text
    );
}

/// Makes a move of a word on each of its streams.
fn play_letter(rt: &impl Abort, streams: &mut Streams, client: bool, word: Word, letter: u8)
    requires { IsTrue client → streams.old.role ≡ Role.Client }
    ensures { streams.new.role ≡ streams.old.role }
{
    let mut stream = word.first;
    for _ in 0..word.last.saturating_sub(word.first) / 2 + 1 {
        play_move(rt, streams, client, word, letter, stream);
        stream = stream.saturating_add(2);
    }
}

fn play_word(rt: &impl Abort, streams: &mut Streams, client: bool, word: Word)
    requires { IsTrue client → streams.old.role ≡ Role.Client }
    ensures { streams.new.role ≡ streams.old.role }
{
    for letter in word.letters {
        play_letter(rt, streams, client, word, *letter);
    }
}

fn streams_of(rt: &impl Abort, alloc: Global, client: bool) -> Streams
    ensures { IsTrue client → result.role ≡ Role.Client }
{
    let role = if client { Role::Client } else { Role::Server };
    Streams::new(alloc, role).ok().expect(rt, "memory")
}

/// Makes the moves of a line, each of which has to be answered as it says.
pub fn play(rt: &impl Abort, alloc: Global, line: &str) {
    let (role, words) = cut(line, " ");
    let client = role.as_bytes() == "client".as_bytes();
    let mut streams = streams_of(rt, alloc, client);
    for word in words.split(' ') {
        play_word(rt, &mut streams, client, word_of(rt, line, word));
    }
}
