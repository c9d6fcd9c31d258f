//! As many octets and frames as can wait.

use crate::outgoing_steps::{put, wrote};
use hb_outgoing::Outgoing;
use std::process::Abort;

/// An acknowledgement of SETTINGS, and the empty DATA frame that ends stream 3.
const ACKNOWLEDGED: &[u8] = b"\x00\x00\x00\x04\x01\x00\x00\x00\x00";

const END: &[u8] = b"\x00\x00\x00\x00\x01\x00\x00\x00\x03";

/// The last octet of a frame is the lowest of its stream.
fn assert_last(rt: &impl Abort, outgoing: &Outgoing, count: usize, last: u8) {
    assert!(rt; outgoing.front().len() == count);
    assert!(rt; outgoing.front().last() == Some(&last));
}

/// 7,280 frames of nine octets leave room for 16 more.
fn assert_many_wait(rt: &impl Abort, outgoing: &mut Outgoing) {
    for _ in 0..3_640 {
        put(rt, outgoing, ACKNOWLEDGED);
        put(rt, outgoing, END);
    }
    assert!(rt; outgoing.room() == 16);
    assert_last(rt, outgoing, 65_520, 3);
}

/// They are written, the first DATA frame in two parts.
fn assert_many_are_written(rt: &impl Abort, outgoing: &mut Outgoing) {
    wrote(rt, outgoing, 10);
    assert!(rt; outgoing.take_back(3) == 0 && outgoing.end_waits(3));
    assert_last(rt, outgoing, 8 + 3_639 * 9, 0);
    wrote(rt, outgoing, 8);
    assert!(rt; !outgoing.end_waits(3));
    wrote(rt, outgoing, 3_639 * 9);
    assert!(rt; outgoing.is_empty());
}

#[test]
fn many_frames_wait(rt: HostRuntime) {
    let mut outgoing = Outgoing::new(rt.alloc()).expect(&rt, "memory");
    assert_many_wait(&rt, &mut outgoing);
    assert_many_are_written(&rt, &mut outgoing);
}

/// An acknowledgement, and the empty DATA frame that ends stream 4 n + 1.
fn put_end(rt: &impl Abort, outgoing: &mut Outgoing, n: u32) {
    put(rt, outgoing, ACKNOWLEDGED);
    if outgoing.room() >= 9 && n < 1_000 {
        outgoing.put_frame(0, 1, 4 * n + 1, &[]);
    }
}

/// Of 400 streams that end behind an acknowledgement each, the first half lies in front of 1,800 more of these. The first end
/// is written.
fn put_many_ends(rt: &impl Abort, outgoing: &mut Outgoing) {
    for n in 0..200 {
        put_end(rt, outgoing, n);
    }
    for _ in 0..1_800 {
        put(rt, outgoing, ACKNOWLEDGED);
    }
    for n in 200..400 {
        put_end(rt, outgoing, n);
    }
    assert_last(rt, outgoing, 2_600 * 9, 61);
    wrote(rt, outgoing, 19);
}

/// The stream's end waits or doesn't, and goes once it is reset.
fn assert_reset(rt: &impl Abort, outgoing: &mut Outgoing, stream: u32, waits: bool) {
    let before = outgoing.front().len();
    assert!(rt; outgoing.end_waits(stream) == waits);
    assert!(rt; outgoing.take_back(stream) == 0);
    let gone = if waits { 9 } else { 0 };
    assert!(rt; outgoing.front().len() + gone == before);
    assert!(rt; !outgoing.end_waits(stream));
}

/// All are reset, the lowest first; none of the streams in between has an end.
#[test]
fn many_ends_are_taken_back(rt: HostRuntime) {
    let mut outgoing = Outgoing::new(rt.alloc()).expect(&rt, "memory");
    put_many_ends(&rt, &mut outgoing);
    for n in 0..400 {
        assert_reset(&rt, &mut outgoing, 4 * n + 1, n > 0);
        assert_reset(&rt, &mut outgoing, 4 * n + 3, false);
    }
    assert_last(&rt, &outgoing, 2_198 * 9 + 8, 0);
}
