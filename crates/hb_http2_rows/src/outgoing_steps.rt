//! Steps of a row: a word for the call, and what it is called with or has to answer.

use crate::hex::octets_of;
use crate::told::{cut, number_of};
use hb_outgoing::Outgoing;
use std::alloc::Global;
use std::process::Abort;

/// Puts the frame that the octets spell.
pub fn put(rt: &impl Abort, outgoing: &mut Outgoing, octets: &[u8]) {
    assert!(rt; octets.len() >= 9);
    let (head, payload) = octets.split_at(9);
    let word = u32::from_be_bytes([head[5], head[6], head[7], head[8]]);
    assert!(rt; word <= 2_147_483_647);
    assert!(rt; payload.len() <= 65_536);
    assert!(rt; outgoing.room() >= 9 + payload.len());
    outgoing.put_frame(head[3], head[4], word, payload);
}

fn open(rt: &impl Abort, outgoing: &mut Outgoing, octets: &[u8]) {
    assert!(rt; outgoing.is_empty());
    assert!(rt; octets.len() <= 65_536);
    outgoing.put_opening(octets);
}

pub fn wrote(rt: &impl Abort, outgoing: &mut Outgoing, count: u32) {
    assert!(rt; count as usize <= outgoing.front().len());
    outgoing.wrote(count as usize);
}

/// Takes a stream's DATA frames back, which have to have as many octets of payload as the second number says.
fn back(rt: &impl Abort, outgoing: &mut Outgoing, row: &str, numbers: &str) {
    let (stream, size) = cut(numbers, " ");
    let told = outgoing.take_back(number_of(rt, stream));
    assert!(rt; told == number_of(rt, size), "{row}: {told} taken back");
}

/// The first DATA frame with payload is of this stream and size; there is none where the numbers are 0.
fn unbegun(rt: &impl Abort, outgoing: &Outgoing, row: &str, numbers: &str) {
    let (stream, size) = cut(numbers, " ");
    let found = match outgoing.unbegun() {
        Some(found) => (found.stream, found.size),
        None => (0, 0),
    };
    let want = (number_of(rt, stream), number_of(rt, size));
    assert!(rt; found == want, "{row}: unbegun {numbers}");
}

fn ends(rt: &impl Abort, outgoing: &Outgoing, row: &str, words: &str) {
    let (stream, answer) = cut(words, " ");
    let waits = outgoing.end_waits(number_of(rt, stream));
    assert!(rt; waits == (answer == "yes"), "{row}: ends {words}");
}

/// The frame in part is DATA of this stream, or not.
fn begun(rt: &impl Abort, outgoing: &Outgoing, row: &str, words: &str) {
    let (stream, answer) = cut(words, " ");
    let begun = outgoing.data_begun(number_of(rt, stream));
    assert!(rt; begun == (answer == "yes"), "{row}: begun {words}");
}

fn room(rt: &impl Abort, outgoing: &Outgoing, row: &str, number: &str) {
    let room = outgoing.room();
    assert!(rt;
        room == number_of(rt, number) as usize,
        "{row}: room {room}"
    );
}

fn waits(rt: &impl Abort, alloc: Global, outgoing: &Outgoing, row: &str, digits: &str) {
    let want = octets_of(rt, alloc, digits);
    assert!(rt;
        outgoing.front() == want.as_slice(),
        "{row}: other octets wait"
    );
    assert!(rt; outgoing.is_empty() == want.is_empty(), "{row}: is empty");
}

/// Does one step, and holds what it tells against the row.
pub fn step(rt: &impl Abort, alloc: Global, outgoing: &mut Outgoing, row: &str, words: &str) {
    let (call, rest) = cut(words, " ");
    match call {
        "open" => open(rt, outgoing, octets_of(rt, alloc, rest).as_slice()),
        "put" => put(rt, outgoing, octets_of(rt, alloc, rest).as_slice()),
        "wrote" => wrote(rt, outgoing, number_of(rt, rest)),
        "back" => back(rt, outgoing, row, rest),
        "all" => outgoing.take_back_all(),
        "unbegun" => unbegun(rt, outgoing, row, rest),
        "begun" => begun(rt, outgoing, row, rest),
        "ends" => ends(rt, outgoing, row, rest),
        "room" => room(rt, outgoing, row, rest),
        _ => {
            assert!(rt; call == "waits");
            waits(rt, alloc, outgoing, row, rest);
        }
    }
}
