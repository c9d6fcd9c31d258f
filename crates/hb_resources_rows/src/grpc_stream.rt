//! One stream, in many pieces.

use hb_base::Bytes;
use hb_grpc::{Fed, Framer, put_message};
use std::alloc::Global;
use std::process::Abort;

/// Message `i` of the stream: empty where 3 divides `i`, else up to 40 bytes, and 300 in each hundredth.
fn message_of(rt: &impl Abort, alloc: Global, i: usize) -> Vec<u8> {
    let size = if i % 100 == 50 {
        300
    } else if i % 3 == 0 {
        0
    } else {
        i % 41
    };
    let mut message = Vec::new(alloc);
    for j in 0..size {
        message
            .push(((i % 256 + j % 256) % 256) as u8)
            .expect(rt, "memory");
    }
    message
}

/// The bytes of a message, of at most 65,535 bytes.
fn push_spelling(rt: &impl Abort, bytes: &mut Vec<u8>, message: &[u8]) {
    let size = message.len();
    let header = [0, 0, 0, (size / 256 % 256) as u8, (size % 256) as u8];
    bytes.extend_from_slice(&header).expect(rt, "memory");
    bytes.extend_from_slice(message).expect(rt, "memory");
}

/// The first `count` messages of the stream.
#[derive(Drop)]
struct Stream {
    bytes: Vec<u8>,
    lines: String,
}

fn tell(rt: &impl Abort, lines: &mut String, message: &[u8]) {
    writeln!(lines, "{message:?}").expect(rt, "memory");
}

fn stream_of(rt: &impl Abort, alloc: Global, count: usize) -> Stream {
    let mut bytes = Vec::new(alloc);
    let mut lines = String::new(alloc);
    for i in 0..count {
        let message = message_of(rt, alloc, i);
        push_spelling(rt, &mut bytes, message.as_slice());
        tell(rt, &mut lines, message.as_slice());
    }
    Stream { bytes, lines }
}

fn tell_given(rt: &impl Abort, lines: &mut String, message: Option<Bytes>) {
    if let Some(message) = message {
        tell(rt, lines, message.as_slice());
    }
}

/// Feeds one piece to its end, and tells its messages.
fn feed_piece(rt: &impl Abort, framer: &mut Framer, piece: &[u8], lines: &mut String) {
    let mut rest = piece;
    for _ in 0..piece.len() {
        if rest.is_empty() {
            break;
        }
        let Fed { taken, message } = framer.feed(rest).ok().expect(rt, "no fault");
        tell_given(rt, lines, message);
        rest = rest.split_at(taken).1;
    }
    assert!(rt; rest.is_empty(), "bytes are left");
}

fn assert_lines(rt: &impl Abort, framer: &Framer, lines: &str, want: &str) {
    assert!(rt; framer.between(), "a part is held");
    assert!(rt; lines.as_bytes() == want.as_bytes(), "other messages");
}

#[test]
fn a_stream_is_read_by_single_bytes(rt: HostRuntime) {
    let stream = stream_of(&rt, rt.alloc(), 300);
    let mut framer = Framer::new(rt.alloc(), 300);
    let mut lines = String::new(rt.alloc());
    for byte in stream.bytes.chunks(1) {
        feed_piece(&rt, &mut framer, byte, &mut lines);
    }
    assert_lines(&rt, &framer, lines.as_str(), stream.lines.as_str());
}

fn assert_read_at_cut(rt: &impl Abort, alloc: Global, stream: &Stream, cut: usize) {
    let mut framer = Framer::new(alloc, 300);
    let mut lines = String::new(alloc);
    let bytes = stream.bytes.as_slice();
    let (front, back) = bytes.split_at(cut.min(bytes.len()));
    feed_piece(rt, &mut framer, front, &mut lines);
    feed_piece(rt, &mut framer, back, &mut lines);
    assert_lines(rt, &framer, lines.as_str(), stream.lines.as_str());
}

#[test]
fn a_stream_is_read_at_each_cut(rt: HostRuntime) {
    let stream = stream_of(&rt, rt.alloc(), 20);
    for cut in 0..stream.bytes.len() + 1 {
        assert_read_at_cut(&rt, rt.alloc(), &stream, cut);
    }
}

/// The next number of Knuth's linear congruential generator (MMIX).
fn next_number(number: u64) -> u64 {
    number
        .wrapping_mul(6_364_136_223_846_793_005)
        .wrapping_add(1_442_695_040_888_963_407)
}

fn assert_read_at_random(rt: &impl Abort, alloc: Global, stream: &Stream, start: u64) {
    let mut framer = Framer::new(alloc, 300);
    let mut lines = String::new(alloc);
    let mut number = start;
    let mut rest = stream.bytes.as_slice();
    for _ in 0..stream.bytes.len() {
        number = next_number(number);
        let size = (number / 0x1_0000_0000 % 97) as usize + 1;
        let (piece, behind) = rest.split_at(size.min(rest.len()));
        feed_piece(rt, &mut framer, piece, &mut lines);
        rest = behind;
    }
    assert_lines(rt, &framer, lines.as_str(), stream.lines.as_str());
}

#[test]
fn a_stream_is_read_in_random_pieces(rt: HostRuntime) {
    let stream = stream_of(&rt, rt.alloc(), 300);
    for start in 0..8 {
        assert_read_at_random(&rt, rt.alloc(), &stream, start);
    }
}

#[test]
fn messages_are_put_as_they_are_spelled(rt: HostRuntime) {
    let stream = stream_of(&rt, rt.alloc(), 300);
    let mut bytes = Vec::new(rt.alloc());
    for i in 0..300 {
        let message = message_of(&rt, rt.alloc(), i);
        let message = message.as_slice();
        assert!(&rt; message.len() <= 300, "a longer message");
        put_message(rt.alloc(), message, &mut bytes).expect(&rt, "memory");
    }
    assert!(&rt; bytes.as_slice() == stream.bytes.as_slice(), "other bytes");
}
