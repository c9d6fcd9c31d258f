//! Each frame type and each refusal, in any pieces.

use crate::frame_refusals::REFUSALS;
use crate::frame_vectors::VECTORS;
use crate::hex::{octets_behind, octets_of};
use crate::told::{assert_octets, assert_told, cut, tell};
use hb_frames::{Body, Frame, FrameReader};
use std::alloc::Global;
use std::process::Abort;

/// Tells the frame or the fault that the reader gives next, and says whether it was a frame.
fn tell_next(rt: &impl Abort, reader: &mut FrameReader, told: &mut String) -> bool {
    match reader.next_frame() {
        Ok(Some(frame)) => {
            tell(rt, told, &frame);
            true
        }
        Ok(None) => false,
        Err(fault) => {
            tell(rt, told, &fault);
            false
        }
    }
}

/// Feeds a piece, and says whether all of it was taken.
fn feed(reader: &mut FrameReader, piece: &[u8]) -> bool {
    reader.feed(piece) == piece.len()
}

/// What the reader tells after it was fed one more piece: a line for each frame, and the fault.
fn tell_piece(rt: &impl Abort, reader: &mut FrameReader, piece: &[u8], told: &mut String) {
    if !feed(reader, piece) {
        told.push_str("too large a piece\n").expect(rt, "memory");
    }
    for _ in 0..piece.len() + 1 {
        if !tell_next(rt, reader, told) {
            break;
        }
    }
}

fn told_at_cut(rt: &impl Abort, alloc: Global, octets: &[u8], cut: usize) -> String {
    let mut told = String::new(alloc);
    let mut reader = FrameReader::new(alloc, 16_384).expect(rt, "memory");
    let (front, back) = octets.split_at(cut.min(octets.len()));
    tell_piece(rt, &mut reader, front, &mut told);
    tell_piece(rt, &mut reader, back, &mut told);
    told
}

fn told_by_octets(rt: &impl Abort, alloc: Global, octets: &[u8]) -> String {
    let mut told = String::new(alloc);
    let mut reader = FrameReader::new(alloc, 16_384).expect(rt, "memory");
    for octet in octets.chunks(1) {
        tell_piece(rt, &mut reader, octet, &mut told);
    }
    told
}

/// The octets are told so, one at a time and at each cut.
fn assert_read(rt: &impl Abort, alloc: Global, octets: &[u8], want: &str) {
    let told = told_by_octets(rt, alloc, octets);
    assert_told(rt, "one at a time", told.as_str(), want);
    for cut in 0..octets.len() + 1 {
        let told = told_at_cut(rt, alloc, octets, cut);
        assert_told(rt, "at a cut", told.as_str(), want);
    }
}

/// The frame of a row is told so, and is put behind the others and their lines.
fn add_frame(rt: &impl Abort, alloc: Global, row: &str, stream: &mut Vec<u8>, lines: &mut String) {
    let (words, shown) = cut(row, "; ");
    let mut line = String::from_str(alloc, shown).expect(rt, "memory");
    line.push_str("\n").expect(rt, "memory");
    let octets = octets_of(rt, alloc, words);
    stream
        .extend_from_slice(octets.as_slice())
        .expect(rt, "memory");
    lines.push_str(line.as_str()).expect(rt, "memory");
    assert_read(rt, alloc, octets.as_slice(), line.as_str())
}

#[test]
fn each_frame_type_is_read_in_any_pieces(rt: HostRuntime) {
    let mut stream = Vec::new(rt.alloc());
    let mut lines = String::new(rt.alloc());
    for row in VECTORS.lines() {
        add_frame(&rt, rt.alloc(), row, &mut stream, &mut lines);
    }
    assert_read(&rt, rt.alloc(), stream.as_slice(), lines.as_str());
}

/// The fault as it is shown at offset 0, three times at another, behind other lines.
fn fault_lines(rt: &impl Abort, alloc: Global, lines: &str, shown: &str, at: &str) -> String {
    let (front, back) = cut(shown, "at: 0");
    let line = format!(in alloc; "{front}at: {at}{back}\n").expect(rt, "memory");
    let mut told = String::from_str(alloc, lines).expect(rt, "memory");
    for _ in 0..3 {
        told.push_str(line.as_str()).expect(rt, "memory");
    }
    told
}

/// The row's frame, behind these words, is refused at its last octet and not before, and again at each of two more.
fn assert_refused(rt: &impl Abort, alloc: Global, row: &str, words: &str, lines: &str, at: &str) {
    let (frame, shown) = cut(row, "; ");
    let mut octets = octets_behind(rt, alloc, words, frame);
    octets.extend_from_slice(&[0, 0]).expect(rt, "memory");
    let told = told_by_octets(rt, alloc, octets.as_slice());
    let want = fault_lines(rt, alloc, lines, shown, at);
    assert_told(rt, row, told.as_str(), want.as_str());
}

/// A frame of an unknown type, and its line.
const UNKNOWN: &str = "0000000b0000000000";

const UNKNOWN_LINE: &str = "Frame { flags: 0, stream: 0, body: Unknown { kind: 11 } }\n";

#[test]
fn each_refusal_has_its_fault(rt: HostRuntime) {
    for row in REFUSALS.lines() {
        if !row.starts_with('#') {
            assert_refused(&rt, rt.alloc(), row, "", "", "0");
            assert_refused(&rt, rt.alloc(), row, UNKNOWN, UNKNOWN_LINE, "9");
        }
    }
}

/// Whether the frame is the last DATA of stream 5, and of these octets, which all count.
fn is_data(frame: &Frame<'_>, octets: &[u8]) -> bool {
    match frame.body {
        Body::Payload { bytes, counted } => {
            let counted = counted as usize;
            frame.flags == 1 && frame.stream == 5 && bytes == octets && counted == octets.len()
        }
        _ => false,
    }
}

/// The reader gives that frame of these octets, and gives them again.
fn assert_gives(rt: &impl Abort, reader: &mut FrameReader, octets: &[u8]) {
    match reader.next_frame() {
        Ok(Some(frame)) => assert!(rt; is_data(&frame, octets)),
        _ => panic!(rt; "no frame"),
    }
    assert_octets(rt, "last", reader.last_bytes(), octets);
}

/// A DATA frame of 16,384 octets fills a reader to its last of 16,393, and is given whole.
fn assert_largest(rt: &impl Abort, alloc: Global, reader: &mut FrameReader) {
    let payload = octets_of(rt, alloc, "64*16384");
    let octets = octets_of(rt, alloc, "004000000100000005 64*16384 00");
    assert!(rt; reader.feed(octets.as_slice()) == 16_393 && reader.space() == 0);
    assert_gives(rt, reader, payload.as_slice());
    assert!(rt; reader.space() == 16_393);
}

#[test]
fn the_largest_frame_is_read(rt: HostRuntime) {
    let mut reader = FrameReader::new(rt.alloc(), 16_384).expect(&rt, "memory");
    assert_largest(&rt, rt.alloc(), &mut reader);
}

/// The reader's space, and the body that it gave last.
fn tell_state(rt: &impl Abort, reader: &FrameReader, told: &mut String) {
    tell(rt, told, &(reader.space(), reader.last_bytes()))
}

/// The states of a reader behind each piece that it is fed, and behind each of so many frames that it is asked for.
fn states_told(rt: &impl Abort, alloc: Global, pieces: &[&[u8]], asked: usize) -> String {
    let mut told = String::new(alloc);
    let mut reader = FrameReader::new(alloc, 16_384).expect(rt, "memory");
    for piece in pieces {
        feed(&mut reader, piece);
        tell_state(rt, &reader, &mut told);
        for _ in 0..asked {
            tell_next(rt, &mut reader, &mut told);
            tell_state(rt, &reader, &mut told);
        }
    }
    told
}

/// Nothing; and padded DATA and SETTINGS, which are given in turn.
const TWO_FRAMES: [&[u8]; 2] = [
    b"",
    b"\x00\x00\x03\x00\x08\x00\x00\x00\x01\x01\x61\x00\x00\x00\x00\x04\x00\x00\x00\x00\x00",
];

const TWO_FRAMES_TOLD: &str = "\
(16393, [])
(16393, [])
(16393, [])
(16393, [])
(16372, [])
Frame { flags: 8, stream: 1, body: Payload { bytes: [97], counted: 3 } }
(16384, [97])
Frame { flags: 0, stream: 0, body: Settings { pairs: [] } }
(16393, [])
(16393, [])
";

#[test]
fn the_last_body_is_given_again(rt: HostRuntime) {
    let told = states_told(&rt, rt.alloc(), &TWO_FRAMES, 3);
    assert_told(&rt, "two frames", told.as_str(), TWO_FRAMES_TOLD);
}

/// CONTINUATION, which is given before nothing more is fed.
const ONE_FRAME: [&[u8]; 2] = [b"\x00\x00\x01\x09\x00\x00\x00\x00\x01\x62", b""];

const ONE_FRAME_TOLD: &str = "\
(16383, [])
Frame { flags: 0, stream: 1, body: Continuation { block: [98] } }
(16393, [98])
(16393, [])
(16393, [])
";

#[test]
fn a_feed_takes_the_last_body_away(rt: HostRuntime) {
    let told = states_told(&rt, rt.alloc(), &ONE_FRAME, 1);
    assert_told(&rt, "one frame", told.as_str(), ONE_FRAME_TOLD);
}
