//! Replays whose script can't be read, or whose report can't be written.

use crate::runs::{Failing, NOTHING_FAILS, told, told_of};
use crate::scripts::script_of;
use std::alloc::Global;
use std::process::Abort;

/// A replay of the base, some of whose calls fail.
fn told_of_base(rt: &impl Abort, alloc: Global, failing: Failing) -> String {
    let script = script_of(rt, alloc, "BASE");
    told_of(rt, alloc, "replay USUAL", script.as_slice(), failing)
}

#[test]
fn a_script_that_fails_is_told(rt: HostRuntime) {
    let failing = Failing {
        take: 1,
        ..NOTHING_FAILS
    };
    let ended = told_of_base(&rt, rt.alloc(), failing);
    assert!(&rt;
        ended.as_str() == r#"6 "" "hbone: read fault\n""#,
        "{ended}"
    );
}

#[test]
fn a_report_that_fails_is_told(rt: HostRuntime) {
    let failing = Failing {
        put: 1,
        ..NOTHING_FAILS
    };
    let ended = told_of_base(&rt, rt.alloc(), failing);
    assert!(&rt;
        ended.as_str() == r#"7 "" "hbone: write fault\n""#,
        "{ended}"
    );
}

/// The report of the base.
const REPORT: &[u8] = b"link 1 discovery 10.0.0.1:15010: received 344, sent 450, closed stopped\n\
total: 1 links, 0 accepted, 0 revoked, 0 up, 0 down\n";

/// The output has room for so many octets of the report.
fn assert_first(rt: &impl Abort, alloc: Global, room: usize) {
    let failing = Failing {
        room,
        ..NOTHING_FAILS
    };
    let ended = told_of_base(rt, alloc, failing);
    let first = &REPORT[..room.min(REPORT.len())];
    let want = if room < REPORT.len() {
        told(rt, alloc, 7, first, b"hbone: write fault\n")
    } else {
        told(rt, alloc, 0, first, b"")
    };
    assert!(rt; ended.as_str() == want.as_str(), "{room}: {ended}");
}

#[test]
fn an_output_without_room_has_the_first_of_the_report(rt: HostRuntime) {
    for room in 0..200 {
        assert_first(&rt, rt.alloc(), room);
    }
}
