//! A hundred streams and one more; a connection behind an error.

use crate::acts::end_of;
use crate::octets::octets_of;
use crate::peer::{Seen, run};
use hb_conn::Conn;
use std::alloc::Global;
use std::process::Abort;

/// The peer's HEADERS with END_HEADERS on the odd stream of this place.
fn headers(rt: &impl Abort, alloc: Global, conn: &mut Conn, place: u8) -> Seen {
    assert!(rt; place <= 100);
    let stream = place * 2 + 1;
    run(rt, alloc, conn, &[0, 0, 1, 1, 4, 0, 0, 0, stream, 0x82], 64)
}

fn assert_opens(rt: &impl Abort, alloc: Global, conn: &mut Conn, place: u8) {
    let seen = headers(rt, alloc, conn, place);
    assert!(rt; seen.sent.is_empty());
    assert!(rt; conn.streams_open() == u32::from(place) + 1);
    let sides = conn.sides(u32::from(place) * 2 + 1);
    assert!(rt; sides.own && sides.peer);
}

fn assert_refuses(rt: &impl Abort, alloc: Global, conn: &mut Conn) {
    let seen = headers(rt, alloc, conn, 100);
    let refused = octets_of(rt, alloc, "0000040300000000c900000007");
    assert!(rt; seen.told.as_bytes() == " b201:7".as_bytes());
    assert!(rt; seen.sent.as_slice() == refused.as_slice());
    assert!(rt; conn.streams_open() == 100);
    assert!(rt; !conn.sides(201).own && !conn.sides(203).peer);
}

fn assert_limit(rt: &impl Abort, alloc: Global, conn: &mut Conn) {
    let opening = octets_of(rt, alloc, "PRE SET");
    run(rt, alloc, conn, opening.as_slice(), 64);
    for place in 0..100u8 {
        assert_opens(rt, alloc, conn, place);
    }
    assert_refuses(rt, alloc, conn);
}

#[test]
fn the_101st_open_stream_is_refused(rt: HostRuntime) {
    let mut conn = end_of(&rt, rt.alloc(), "server");
    assert_limit(&rt, rt.alloc(), &mut conn);
}

fn assert_deaf(rt: &impl Abort, alloc: Global, conn: &mut Conn) {
    assert!(rt; conn.space() == 16_393);
    assert!(rt; conn.room() == 65_536 - 45);
    let wrong = octets_of(rt, alloc, "ACK ACK");
    let seen = run(rt, alloc, conn, wrong.as_slice(), 18);
    assert!(rt; seen.told.as_bytes() == " f1".as_bytes());
    assert!(rt; conn.space() == 0);
    assert!(rt; conn.take(wrong.as_slice()) == 0);
}

#[test]
fn nothing_is_taken_after_a_connection_error(rt: HostRuntime) {
    let mut conn = end_of(&rt, rt.alloc(), "client");
    assert_deaf(&rt, rt.alloc(), &mut conn);
}
