//! What frames and acts are answered (RFC 9113 section 5.1).

use crate::moves::play;
use crate::rows::{SEQUENCES, STATES};
use std::alloc::Global;
use std::process::Abort;

fn play_all(rt: &impl Abort, alloc: Global, table: &[u8]) {
    let lines = std::str::from_utf8(table).ok().expect(rt, "text");
    for line in lines.lines() {
        if !line.starts_with("#") {
            play(rt, alloc, line);
        }
    }
}

#[test]
fn each_frame_in_each_state(rt: HostRuntime) {
    play_all(&rt, rt.alloc(), STATES);
}

#[test]
fn sequences_of_moves(rt: HostRuntime) {
    play_all(&rt, rt.alloc(), SEQUENCES);
}
