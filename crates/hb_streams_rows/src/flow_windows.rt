//! What the windows of a connection let go and take (RFC 9113 section 6.9).

use crate::flow_rows::{LARGEST, SENDING, SIZES, TAKING};
use crate::flow_steps::play_all;

#[test]
fn what_may_be_sent(rt: HostRuntime) {
    play_all(&rt, rt.alloc(), SENDING);
}

#[test]
fn changes_of_the_initial_size(rt: HostRuntime) {
    play_all(&rt, rt.alloc(), SIZES);
}

#[test]
fn the_largest_window(rt: HostRuntime) {
    play_all(&rt, rt.alloc(), LARGEST);
}

#[test]
fn what_may_come(rt: HostRuntime) {
    play_all(&rt, rt.alloc(), TAKING);
}
