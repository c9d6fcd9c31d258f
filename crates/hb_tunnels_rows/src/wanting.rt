//! Slots, tunnels and front headers where memory was wanting: nothing changed, and the next try succeeds.

use hb_base::{Ip, NoMemory, Target};
use hb_front::{FrontRead, put_front, read_front};
use hb_slots::Slots;
use hb_tunnel::Tunnel;
use std::alloc::Global;
use std::process::Abort;

/// 10.0.0.7:8080.
const TARGET: Target = Target {
    ip: Ip::V4(0x0a00_0007),
    port: 8080,
};

/// Adds a number under itself, and says whether memory was wanting; then there is none under it.
fn is_wanting_slot(rt: &impl Abort, slots: &mut Slots<u32>, number: u32) -> bool {
    assert!(rt; slots.get(number).is_none(), "a slot");
    let wanting = slots.add(number, number).is_err();
    assert!(rt; slots.get(number).is_none() == wanting, "added");
    wanting
}

#[test]
fn slots_stay_where_memory_was_wanting(rt: HostRuntime) {
    let mut slots = Slots::new(rt.alloc());
    for number in [5, 1, 9, 3, 7] {
        if is_wanting_slot(&rt, &mut slots, number) {
            assert!(&rt; !is_wanting_slot(&rt, &mut slots, number), "wanting again");
        }
    }
    for number in [1, 3, 5, 7, 9] {
        assert!(&rt; slots.get(number).copied() == Some(number), "not all");
    }
}

#[test]
fn a_tunnel_is_made_at_the_next_try(rt: HostRuntime) {
    let alloc = rt.alloc();
    let tunnel = match Tunnel::new(alloc) {
        Ok(tunnel) => tunnel,
        Err(NoMemory) => Tunnel::new(alloc).expect(&rt, "wanting again"),
    };
    assert!(&rt; tunnel.held_up().is_empty(), "bytes in a new tunnel");
}

/// Puts a header behind one byte, and says whether memory was wanting; then the byte stands alone.
fn is_wanting_front(rt: &impl Abort, alloc: Global, bytes: &mut Vec<u8>) -> bool {
    let wanting = put_front(alloc, TARGET, TARGET, None, bytes).is_err();
    let (first, header) = bytes.as_slice().split_first().expect(rt, "a byte");
    let is_whole = match read_front(header) {
        FrontRead::Whole(seen) => seen.length == header.len(),
        _ => false,
    };
    assert!(rt; *first == 7, "another byte");
    assert!(rt;
        header.is_empty() == wanting && is_whole != wanting,
        "another header"
    );
    wanting
}

#[test]
fn a_header_is_put_whole_or_not_at_all(rt: HostRuntime) {
    let alloc = rt.alloc();
    let mut bytes = Vec::from_slice(alloc, b"\x07").expect(&rt, "memory");
    if is_wanting_front(&rt, alloc, &mut bytes) {
        assert!(&rt; !is_wanting_front(&rt, alloc, &mut bytes), "wanting again");
    }
}
