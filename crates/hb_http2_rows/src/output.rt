//! Frames that are put.

use crate::frame_vectors::VECTORS;
use crate::hex::octets_of;
use crate::told::{assert_octets, cut};
use hb_frames::Output;
use std::alloc::Global;
use std::process::Abort;

/// The number that four octets spell.
fn number_of(octets: &[u8]) -> u32 {
    match octets {
        [first, second, third, fourth] => u32::from_be_bytes([*first, *second, *third, *fourth]),
        _ => u32::MAX,
    }
}

/// Puts the frame that these octets are.
fn put(rt: &impl Abort, output: &mut Output, octets: &[u8]) {
    assert!(rt; octets.len() >= 9);
    let (head, payload) = octets.split_at(9);
    let stream = number_of(&head[5..]);
    assert!(rt; stream <= 2_147_483_647);
    assert!(rt; payload.len() <= 16_384);
    assert!(rt; output.room() >= 9 + payload.len());
    output.put_frame(head[3], head[4], stream, payload);
}

/// Puts a frame into an empty output, and takes its octets out.
fn assert_put(rt: &impl Abort, output: &mut Output, row: &str, octets: &[u8]) {
    put(rt, output, octets);
    let size = output.front().len();
    assert_octets(rt, row, output.front(), octets);
    output.drop_front(size);
}

/// The row's frame is put as another implementation writes it, unless its reserved bit is set.
fn assert_row(rt: &impl Abort, alloc: Global, output: &mut Output, row: &str) {
    let octets = octets_of(rt, alloc, cut(row, "; ").0);
    if matches!(octets.get(5), Some(0..=127)) {
        assert_put(rt, output, row, octets.as_slice());
    }
}

#[test]
fn frames_are_put_as_another_writes_them(rt: HostRuntime) {
    let mut output = Output::new(rt.alloc(), 512).expect(&rt, "memory");
    for row in VECTORS.lines() {
        assert_row(&rt, rt.alloc(), &mut output, row);
    }
}

fn put_words(rt: &impl Abort, alloc: Global, output: &mut Output, words: &str) {
    let octets = octets_of(rt, alloc, words);
    put(rt, output, octets.as_slice());
}

fn assert_front(rt: &impl Abort, alloc: Global, output: &Output, words: &str) {
    let want = octets_of(rt, alloc, words);
    assert_octets(rt, words, output.front(), want.as_slice());
}

const FIRST: &str = "003ff7000100000001 64*16375";

const SECOND: &str = "003ff700017fffffff 65*16375";

const HEAD_AND_SECOND: &str = "003ff7000100000001 003ff700017fffffff 65*16375";

/// Two DATA frames of 16,384 octets fill an output of 32,768 to its last octet.
fn assert_fill(rt: &impl Abort, alloc: Global, output: &mut Output) {
    put_words(rt, alloc, output, FIRST);
    put_words(rt, alloc, output, SECOND);
    assert!(rt; output.room() == 0 && output.front().len() == 32_768);
}

/// The first one's payload is cut out, and its head is dropped.
fn assert_cut(rt: &impl Abort, alloc: Global, output: &mut Output) {
    assert!(rt; output.front().len() == 32_768);
    output.cut(9, 16_375);
    assert_front(rt, alloc, output, HEAD_AND_SECOND);
    assert!(rt; output.front().len() == 16_393);
    output.drop_front(9);
    assert_front(rt, alloc, output, SECOND);
    assert!(rt; output.room() == 16_384);
}

#[test]
fn an_output_is_filled_and_cut(rt: HostRuntime) {
    let mut output = Output::new(rt.alloc(), 32_768).expect(&rt, "memory");
    assert_fill(&rt, rt.alloc(), &mut output);
    assert_cut(&rt, rt.alloc(), &mut output);
}

#[test]
fn an_output_is_cut_in_order(rt: HostRuntime) {
    let mut output = Output::new(rt.alloc(), 40).expect(&rt, "memory");
    output.put_frame(6, 1, 0, b"abcdefgh");
    output.put_frame(0, 0, 3, b"xy");
    assert!(rt; output.room() == 12);
    assert!(rt; output.front().len() == 28);
    output.drop_front(9);
    output.cut(8, 9);
    assert_octets(&rt, "cut", output.front(), b"abcdefghxy");
    output.put_frame(8, 0, 0, b"\x00\x00\x00\x01");
    assert!(rt; output.room() == 17);
    assert_octets(
        &rt,
        "put behind a cut",
        output.front(),
        b"abcdefghxy\x00\x00\x04\x08\x00\x00\x00\x00\x00\x00\x00\x00\x01",
    );
}
