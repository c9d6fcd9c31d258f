//! Runs of `hbone serve` over the world of a script. The input isn't read: its first take fails.

use crate::runs::{Failing, UNREADABLE, served};
use std::alloc::Global;
use std::process::Abort;

/// The words behind `serve`, the script of the world, and the status, the output and the error text. The totals are worked by hand.
/// A line that begins with `#` says what the next one is.
const ROWS: &str = r#"# No line.
USUAL; ; 0 "total: 1 links, 0 accepted, 0 revoked, 0 up, 0 down\n" ""
# Two tunnels, and an update that revokes one.
USUAL DOOR; BASE TWO; 0 "total: 4 links, 2 accepted, 1 revoked, 0 up, 101 down\n" ""
# A tunnel to its end, and words in other spellings.
--discovery=10.0.0.1:15010 --inbound=0.0.0.0:15008 --id=z1 --node=n1 --ticks=18446744073709551615; BASE ONE; 0 "total: 3 links, 1 accepted, 0 revoked, 5 up, 5 down\n" ""
# The last of the stated ticks.
USUAL --ticks 2; {'tick':true}|{'tick':true}|{'fault':'wait'}|; 0 "total: 1 links, 0 accepted, 0 revoked, 0 up, 0 down\n" ""
# One tick too few.
USUAL --ticks=3; {'tick':true}|{'tick':true}|{'fault':'wait'}|; 4 "total: 1 links, 0 accepted, 0 revoked, 0 up, 0 down\n" "hbone: world fault\n"
# Ticks that aren't stated.
USUAL; {'tick':true}|{'tick':true}|{'fault':'wait'}|; 4 "total: 1 links, 0 accepted, 0 revoked, 0 up, 0 down\n" "hbone: world fault\n"
# A listen fails.
USUAL DOOR; {'fault':'listen'}|; 4 "total: 0 links, 0 accepted, 0 revoked, 0 up, 0 down\n" "hbone: world fault\n"
# One turn.
USUAL --turns 1; ; 5 "total: 1 links, 0 accepted, 0 revoked, 0 up, 0 down\n" "hbone: turns spent\n""#;

fn assert_served(
    rt: &impl Abort,
    alloc: Global,
    words: &str,
    script: &str,
    failing: Failing,
    want: &str,
) {
    let told = served(rt, alloc, words, script, failing);
    assert!(rt; told.as_str() == want, "{words}: {told}, not {want}");
}

fn assert_row(rt: &impl Abort, alloc: Global, row: &str) {
    let mut fields = row.split("; ");
    let words = fields.next().expect(rt, "words");
    let script = fields.next().expect(rt, "a script");
    let want = fields.next().expect(rt, "an end");
    assert_served(rt, alloc, words, script, UNREADABLE, want);
}

#[test]
fn runs_over_a_world_end_as_the_rules_say(rt: HostRuntime) {
    for row in ROWS.lines() {
        if !row.starts_with('#') {
            assert_row(&rt, rt.alloc(), row);
        }
    }
}

#[test]
fn an_output_that_fails_is_told(rt: HostRuntime) {
    let failing = Failing {
        put: 1,
        ..UNREADABLE
    };
    let want = r#"7 "" "hbone: write fault\n""#;
    for script in ["", "{'fault':'wait'}|"] {
        assert_served(&rt, rt.alloc(), "USUAL", script, failing, want);
    }
}

#[test]
fn an_output_without_room_has_the_first_of_the_total_line(rt: HostRuntime) {
    let failing = Failing {
        room: 8,
        ..UNREADABLE
    };
    let want = r#"7 "total: 1" "hbone: write fault\n""#;
    assert_served(&rt, rt.alloc(), "USUAL", "", failing, want);
}
