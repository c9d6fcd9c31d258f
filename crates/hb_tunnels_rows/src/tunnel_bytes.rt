//! Bytes that pass through both rings, which wrap: bytes come in pieces of one size and are taken in pieces of another one,
//! and come out as they went in.

use hb_tunnel::Tunnel;
use std::alloc::Global;
use std::process::Abort;

/// The byte at a place of what comes.
fn byte_at(place: usize) -> u8 {
    (place % 251) as u8
}

/// The bytes of a piece that comes at this place.
fn piece(rt: &impl Abort, alloc: Global, place: usize, len: usize) -> Vec<u8> {
    let mut bytes = Vec::new(alloc);
    for at in 0..len {
        bytes
            .push(byte_at(place.saturating_add(at)))
            .ok()
            .expect(rt, "memory");
    }
    bytes
}

/// The bytes are those that come from this place on.
fn is_from(bytes: &[u8], place: usize) -> bool {
    let mut at = place;
    for byte in bytes {
        if *byte != byte_at(at) {
            return false;
        }
        at = at.saturating_add(1);
    }
    true
}

fn push_up(rt: &impl Abort, tunnel: &mut Tunnel, bytes: &[u8]) {
    assert!(rt; !tunnel.up_ended() && bytes.len() <= tunnel.room_up());
    tunnel.push_up(bytes);
}

fn push_down(rt: &impl Abort, tunnel: &mut Tunnel, bytes: &[u8]) {
    assert!(rt; !tunnel.down_ended() && bytes.len() <= tunnel.room_down());
    tunnel.push_down(bytes);
}

/// Takes what is handed out, at most so many bytes, and tells how many they were. They are those from this place on.
fn take_up(rt: &impl Abort, tunnel: &mut Tunnel, most: usize, place: usize) -> usize {
    let head = tunnel.held_up();
    let count = head.len().min(most);
    assert!(rt; is_from(&head[..count], place), "up at {place}");
    tunnel.took_up(count);
    count
}

fn take_down(rt: &impl Abort, tunnel: &mut Tunnel, most: usize, place: usize) -> usize {
    let head = tunnel.held_down();
    let count = head.len().min(most);
    assert!(rt; is_from(&head[..count], place), "down at {place}");
    tunnel.took_down(count);
    count
}

fn pass_up(rt: &impl Abort, alloc: Global, tunnel: &mut Tunnel) {
    let mut came: usize = 0;
    let mut taken: usize = 0;
    for _ in 0..40 {
        let bytes = piece(rt, alloc, came, tunnel.room_up().min(20_000));
        came = came.saturating_add(bytes.len());
        push_up(rt, tunnel, &bytes);
        taken = taken.saturating_add(take_up(rt, tunnel, 16_384, taken));
    }
    for _ in 0..10 {
        taken = taken.saturating_add(take_up(rt, tunnel, 65_535, taken));
    }
    assert!(rt; came > 400_000 && taken == came && tunnel.room_up() == 65_535);
}

fn pass_down(rt: &impl Abort, alloc: Global, tunnel: &mut Tunnel) {
    let mut came: usize = 0;
    let mut taken: usize = 0;
    for _ in 0..40 {
        let bytes = piece(rt, alloc, came, tunnel.room_down().min(9_000));
        came = came.saturating_add(bytes.len());
        push_down(rt, tunnel, &bytes);
        taken = taken.saturating_add(take_down(rt, tunnel, 7_000, taken));
    }
    for _ in 0..10 {
        taken = taken.saturating_add(take_down(rt, tunnel, 16_384, taken));
    }
    assert!(rt; came > 150_000 && taken == came && tunnel.room_down() == 16_384);
}

fn pass_down_in_one_piece(rt: &impl Abort, alloc: Global, tunnel: &mut Tunnel) {
    let mut came: usize = 0;
    let mut taken: usize = 0;
    for _ in 0..20 {
        let bytes = piece(rt, alloc, came, tunnel.room_down().min(9_000));
        came = came.saturating_add(bytes.len());
        push_down(rt, tunnel, &bytes);
        let held = tunnel.held_down();
        assert!(rt; is_from(held, taken) && taken.saturating_add(held.len()) == came);
        let count = held.len().min(7_000);
        tunnel.took_down(count);
        taken = taken.saturating_add(count);
    }
    tunnel.end_down();
    assert!(rt; came > 140_000 && !tunnel.down_done());
    let rest = tunnel.held_down().len();
    tunnel.took_down(rest);
    assert!(rt; tunnel.down_done());
}

#[test]
fn bytes_go_up_in_order_round_the_ring(rt: HostRuntime) {
    let mut tunnel = Tunnel::new(rt.alloc()).ok().expect(&rt, "memory");
    pass_up(&rt, rt.alloc(), &mut tunnel);
}

#[test]
fn bytes_go_down_in_order_round_the_ring(rt: HostRuntime) {
    let mut tunnel = Tunnel::new(rt.alloc()).ok().expect(&rt, "memory");
    pass_down(&rt, rt.alloc(), &mut tunnel);
}

#[test]
fn bytes_go_down_in_one_piece_round_the_ring(rt: HostRuntime) {
    let mut tunnel = Tunnel::new(rt.alloc()).ok().expect(&rt, "memory");
    pass_down_in_one_piece(&rt, rt.alloc(), &mut tunnel);
}
