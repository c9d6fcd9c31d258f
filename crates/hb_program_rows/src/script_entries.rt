//! The lines that tell entries of a trace.

use hb_base::{Bytes, Cause, Door, Ip, List, Target, Why};
use hb_script::put_entry;
use hb_world::{Entry, Way, Woken};
use std::process::Abort;

const V4: Target = Target {
    ip: Ip::V4(0x0a00_0007),
    port: 8080,
};

const V6: Target = Target {
    ip: Ip::V6(0x2001_0db8_0000_0000_0000_0000_0000_0001),
    port: 80,
};

fn hello(rt: &(impl Abort + AllocGlobal)) -> Bytes {
    Bytes::of(rt.alloc(), b"hello").expect(rt, "memory")
}

/// The line stands behind what was there.
fn assert_entry(rt: &(impl Abort + AllocGlobal), entry: &Entry, want: &str) {
    let mut out = Vec::from_slice(rt.alloc(), b"tick\n").expect(rt, "memory");
    put_entry(rt.alloc(), entry, &mut out).expect(rt, "memory");
    let told = std::str::from_utf8(out.as_slice()).unwrap_or("no text");
    assert!(rt;
        told.strip_prefix("tick\n") == Some(want),
        "{told} and not {want}"
    );
}

#[test]
fn births_are_told(rt: HostRuntime) {
    assert_entry(
        &rt,
        &Entry::Accepted(2, Door::Inbound),
        "accepted 2 inbound\n",
    );
    assert_entry(
        &rt,
        &Entry::Accepted(3, Door::Outbound),
        "accepted 3 outbound\n",
    );
    assert_entry(&rt, &Entry::Accepted(4, Door::Plain), "accepted 4 plain\n");
    assert_entry(
        &rt,
        &Entry::Dialled(1, V4, Why::Discovery),
        "dialled 1 10.0.0.7:8080\n",
    );
    assert_entry(
        &rt,
        &Entry::Dialled(5, V6, Why::Plain { link: 4 }),
        "dialled 5 [2001:db8::1]:80\n",
    );
    assert_entry(
        &rt,
        &Entry::DialFailed(V4, Why::Discovery),
        "dial failed 10.0.0.7:8080\n",
    );
    assert_entry(
        &rt,
        &Entry::Opened(18_446_744_073_709_551_615),
        "opened 18446744073709551615\n",
    );
}

#[test]
fn bytes_and_ends_are_told(rt: HostRuntime) {
    assert_entry(&rt, &Entry::Came(2, hello(&rt)), "came 2 68656c6c6f\n");
    assert_entry(&rt, &Entry::Went(3, hello(&rt)), "went 3 68656c6c6f\n");
    assert_entry(&rt, &Entry::Ended(2), "ended 2\n");
    assert_entry(&rt, &Entry::Broke(2), "broke 2\n");
    assert_entry(&rt, &Entry::Shut(3), "shut 3\n");
    assert_entry(&rt, &Entry::Closed(2, Cause::Done), "closed 2 done\n");
    assert_entry(
        &rt,
        &Entry::Closed(3, Cause::PeerReset(8)),
        "closed 3 peer reset 8\n",
    );
    assert_entry(
        &rt,
        &Entry::Closed(4, Cause::FrontFault(0)),
        "closed 4 front fault 0\n",
    );
    assert_entry(&rt, &Entry::Tick, "tick\n");
}

#[test]
fn balks_and_waits_are_not_told(rt: HostRuntime) {
    assert_entry(&rt, &Entry::Balked(Way::Read(2)), "");
    assert_entry(&rt, &Entry::Balked(Way::Look(2)), "");
    assert_entry(&rt, &Entry::Wait(List::new(rt.alloc()), Woken::Stop), "");
}
