//! What the lines of a life say: octets and numbers, and what a link tells, in words. Where memory is wanting, words are lacking, and the
//! row fails.

ghost use Rattle.std.specs.Prelude.{◌≡◌, true};

use crate::octets::OCTETS;
use hb_base::{Cause, Note, Peer, Target, Why, put_target};
use hb_world::Act;
use std::alloc::Global;
use std::process::Abort;

/// The line that is played, and the name of its row.
#[derive(Clone, Copy)]
pub struct At<'a> {
    pub row: &'a str,
    pub line: &'a str,
}

/// This holds at a line.
pub fn must(rt: &impl Abort, at: At, holds: bool)
    ensures { holds ≡ true }
{
    assert!(rt; holds, "{}: {}: it isn't so", at.row, at.line);
}

/// These words are the ones that are wanted at a line.
pub fn same(rt: &impl Abort, at: At, words: &str, wanted: &str) {
    let same = words.as_bytes() == wanted.as_bytes();
    assert!(rt; same, "{}: {}: {words}", at.row, at.line);
}

/// The text of a table.
pub fn text_of(octets: &[u8]) -> &str {
    std::str::from_utf8(octets).unwrap_or("no text")
}

/// A text in front of a mark and behind it; the whole text and nothing where it has none.
pub fn cut<'a>(text: &'a str, mark: &str) -> (&'a str, &'a str) {
    text.split_once(mark).unwrap_or((text, ""))
}

/// Whether the first of a row's lines says that its link is turned away, and the other lines.
pub fn turned_in(lines: &str) -> (bool, &str) {
    match lines.strip_prefix("turned away\n") {
        None => (false, lines),
        Some(rest) => (true, rest),
    }
}

/// The number that digits spell.
pub fn number_of(rt: &impl Abort, text: &str) -> u64 {
    text.parse::<u64>().ok().expect(rt, "a number")
}

/// The stream whose number digits spell.
pub fn stream_of(rt: &impl Abort, text: &str) -> u32 {
    u32::try_from(number_of(rt, text)).expect(rt, "a stream")
}

/// The digits that a name stands for; digits for themselves.
fn digits_of<'a>(word: &'a str) -> &'a str {
    for line in text_of(OCTETS).lines() {
        let (name, digits) = cut(line, " ");
        if name == word {
            return digits;
        }
    }
    word
}

/// The octets of words with blanks between: each a name, or hexadecimal digits, two an octet.
pub fn octets_of(rt: &impl Abort, alloc: Global, words: &str) -> Vec<u8> {
    let mut octets = Vec::new(alloc);
    for word in words.split_whitespace() {
        let more = hex::decode(alloc, digits_of(word))
            .ok()
            .expect(rt, "octets");
        octets
            .extend_from_slice(more.as_slice())
            .expect(rt, "memory");
    }
    octets
}

fn put(words: &mut String, text: &str) {
    let _ = words.push_str(text);
}

/// Puts the words of a target.
pub fn put_to(words: &mut String, alloc: Global, to: Target) {
    let mut octets = Vec::new(alloc);
    let _ = put_target(alloc, to, &mut octets);
    put(words, text_of(octets.as_slice()));
}

/// Puts the words of a cause, and its number where it has one.
pub fn put_cause(words: &mut String, cause: Cause) {
    put(words, cause.word());
    if let Some(n) = cause.number() {
        let _ = write!(words, " {n}");
    }
}

fn put_why(words: &mut String, why: Why) {
    let _ = match why {
        Why::Discovery => words.push_str("discovery"),
        Why::Upstream { link, stream } => write!(words, "of {link}/{stream}"),
        Why::Plain { link } => write!(words, "plain {link}"),
        Why::Direct { link } => write!(words, "direct {link}"),
        Why::Gateway { link } => write!(words, "gateway {link}"),
    };
}

/// The words of a close: `close LINK CAUSE`.
pub fn put_close(words: &mut String, link: u64, cause: Cause) {
    let _ = write!(words, "close {link} ");
    put_cause(words, cause);
}

/// The words of an act: `dial TARGET WHY`, `shut LINK`, `close LINK CAUSE`, `none`.
pub fn words_of_act(alloc: Global, act: Option<Act>) -> String {
    let mut words = String::new(alloc);
    match act {
        None => put(&mut words, "none"),
        Some(Act::Dial { to, why }) => {
            put(&mut words, "dial ");
            put_to(&mut words, alloc, to);
            put(&mut words, " ");
            put_why(&mut words, why);
        }
        Some(Act::Shut { link }) => {
            let _ = write!(words, "shut {link}");
        }
        Some(Act::Close { link, cause }) => put_close(&mut words, link, cause),
    }
    words
}

fn put_peer(words: &mut String, peer: &Peer) {
    match &peer.identity {
        None => put(words, " - "),
        Some(identity) => {
            let name = text_of(identity.service_account.as_slice());
            let _ = write!(words, " {name} ");
        }
    }
}

/// The words of a note: `verdict LINK/STREAM STATUS SERVICE-ACCOUNT TARGET`, `end LINK/STREAM UP DOWN CAUSE`.
pub fn words_of_note(alloc: Global, note: &Note) -> String {
    let mut words = String::new(alloc);
    match note {
        Note::Verdict {
            link,
            stream,
            status,
            peer,
            target,
        } => {
            let _ = write!(words, "verdict {link}/{stream} {status}");
            put_peer(&mut words, peer);
            match target {
                None => put(&mut words, "-"),
                Some(to) => put_to(&mut words, alloc, *to),
            }
        }
        Note::End {
            link,
            stream,
            cause,
            up,
            down,
        } => {
            let _ = write!(words, "end {link}/{stream} {up} {down} ");
            put_cause(&mut words, *cause);
        }
    }
    words
}
