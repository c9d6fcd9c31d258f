//! Runs of `hbone serve` and `hbone replay` with audits, some of which fail. What they hold behind it is worked by hand.

use crate::runs::{replayed, served};
use crate::script::script;
use hb_audit::{Audit, Audits, MemAudit};
use hb_base::{Cause, MemSink, Note, Peer, read_identity, read_ip, read_target};
use hb_line_audit::{Always, LineAudit};
use std::alloc::Global;
use std::process::Abort;

/// The lines of the notes of the script.
const LINES: &str = "verdict 2/1 200 10.0.0.9 cluster.local/ns/a/sa/c 10.0.0.7:8080\n\
verdict 2/3 200 10.0.0.9 cluster.local/ns/a/sa/c 10.0.0.7:9090\nend 2/1 revoked up 0 down 100\nend 2/3 stopped up 0 down 1\n";

/// How a run of the script ends, whatever the audits do.
const ENDS: &str = r#"0 "total: 4 links, 2 accepted, 1 revoked, 0 up, 101 down\n" """#;

fn verdict(rt: &impl Abort, alloc: Global, stream: u32, target: &str) -> Note {
    let identity = read_identity(alloc, b"spiffe://cluster.local/ns/a/sa/c");
    Note::Verdict {
        link: 2,
        stream,
        status: 200,
        peer: Peer {
            ip: read_ip(b"10.0.0.9").expect(rt, "an address"),
            identity: identity.expect(rt, "memory"),
        },
        target: read_target(target.as_bytes()).ok(),
    }
}

fn end(stream: u32, cause: Cause, down: u64) -> Note {
    Note::End {
        link: 2,
        stream,
        cause,
        up: 0,
        down,
    }
}

/// What an audit holds before a run, by its number.
fn before(number: u32) -> Note {
    end(number, Cause::Done, 7)
}

/// An audit that holds a note already.
fn audit(alloc: Global, number: u32, fail: Option<u64>) -> MemAudit {
    let mut audit = MemAudit::new(alloc, 9, fail);
    let _ = audit.note(&before(number), None);
    audit
}

/// Three audits, of numbers 10 to 12. The one of number `which` fails at the note of place `at` of the run, counted from 1.
fn three(rt: &impl Abort, alloc: Global, which: u32, at: u64) -> Audits<MemAudit> {
    let mut audits = Vec::new(alloc);
    for number in 10..13u32 {
        let fail = if number == which {
            Some(at.saturating_add(1))
        } else {
            None
        };
        let audit = audit(alloc, number, fail);
        audits.push(audit).ok().expect(rt, "memory");
    }
    Audits::over(audits)
}

fn push(rt: &impl Abort, notes: &mut Vec<Note>, note: Note) {
    notes.push(note).ok().expect(rt, "memory");
}

/// What an audit of this number holds behind a run.
fn notes_of(rt: &impl Abort, alloc: Global, number: u32) -> Vec<Note> {
    let mut notes = Vec::new(alloc);
    push(rt, &mut notes, before(number));
    push(rt, &mut notes, verdict(rt, alloc, 1, "10.0.0.7:8080"));
    push(rt, &mut notes, verdict(rt, alloc, 3, "10.0.0.7:9090"));
    push(rt, &mut notes, end(1, Cause::Revoked, 100));
    push(rt, &mut notes, end(3, Cause::Stopped, 1));
    notes
}

/// The audit at a place holds these notes, and none of them behind.
fn assert_holds<A: Audit>(rt: &impl Abort, audits: &Audits<A>, place: usize, notes: &[Note]) {
    let mut at = 0_usize;
    for note in notes {
        assert!(rt;
            audits.holds(place, at, note) && !audits.holds(place, notes.len(), note),
            "note {at} of the audit at {place}"
        );
        at = at.saturating_add(1);
    }
}

/// Behind a run with `three` the others are left, and hold all; where no note has the place `at` all three are.
fn assert_left(rt: &impl Abort, alloc: Global, audits: &Audits<MemAudit>, which: u32, at: u64) {
    let mut place = 0_usize;
    for number in 10..13u32 {
        if number != which || 4 < at {
            let notes = notes_of(rt, alloc, number);
            assert_holds(rt, audits, place, notes.as_slice());
            place = place.saturating_add(1);
        }
    }
    let left = audits.len();
    assert!(rt; left == place, "{which} fails at {at}: {left} are left");
}

#[test]
fn an_audit_that_fails_while_serve_runs_is_dropped(rt: HostRuntime) {
    let alloc = rt.alloc();
    for which in 10..13u32 {
        for at in 1..6u64 {
            let mut audits = three(&rt, alloc, which, at);
            let told = served(&rt, alloc, &mut audits);
            assert!(&rt; told.as_str() == ENDS, "{which} fails at {at}: {told}");
            assert_left(&rt, alloc, &audits, which, at);
        }
    }
}

#[test]
fn an_audit_that_fails_in_a_replay_is_dropped(rt: HostRuntime) {
    let alloc = rt.alloc();
    let script = script(&rt, alloc);
    for which in 10..13u32 {
        for at in 1..6u64 {
            let mut audits = three(&rt, alloc, which, at);
            let told = replayed(&rt, alloc, script.as_slice(), &mut audits);
            assert!(&rt; told.as_str() == ENDS, "{which} fails at {at}: {told}");
            assert_left(&rt, alloc, &audits, which, at);
        }
    }
}

/// An audit over a sink with so much room.
fn sunk(rt: &impl Abort, alloc: Global, room: usize) -> Audits<LineAudit<Always<MemSink>>> {
    let sink = MemSink::new(alloc, room, &[]).expect(rt, "memory");
    let audit = LineAudit::over(alloc, Always::over(sink));
    let mut audits = Vec::new(alloc);
    let audit = audit.ok().expect(rt, "memory");
    audits.push(audit).ok().expect(rt, "memory");
    Audits::over(audits)
}

/// The sink has as much of the lines as it had room for, and its audit is left where that was all.
fn assert_sunk(rt: &impl Abort, audits: &Audits<LineAudit<Always<MemSink>>>, room: usize) {
    match audits.as_slice().first() {
        Some(audit) => {
            let lines = audit.sink().sink().as_slice();
            assert!(rt;
                lines == &LINES.as_bytes()[..room.min(LINES.len())],
                "room for {room}: the lines"
            )
        }
        None => assert!(rt; room < LINES.len(), "room for {room}: none is left"),
    }
}

#[test]
fn a_sink_has_the_lines_for_which_it_has_room(rt: HostRuntime) {
    for room in 0..LINES.len() + 1 {
        let mut audits = sunk(&rt, rt.alloc(), room);
        let told = served(&rt, rt.alloc(), &mut audits);
        assert!(&rt; told.as_str() == ENDS, "room for {room}: {told}");
        assert_sunk(&rt, &audits, room);
    }
}

/// The audit of this number holds what it held, and no verdict.
fn assert_untold(rt: &impl Abort, alloc: Global, audits: &Audits<MemAudit>, number: u32) {
    let place = (number % 10) as usize;
    let held = before(number);
    let verdict = verdict(rt, alloc, 1, "10.0.0.7:8080");
    assert!(rt;
        audits.holds(place, 0, &held) && !audits.holds(place, 1, &verdict),
        "audit {number}"
    );
}

#[test]
fn what_is_no_script_tells_audits_nothing(rt: HostRuntime) {
    let alloc = rt.alloc();
    let mut audits = three(&rt, alloc, 10, 1);
    let told = replayed(&rt, alloc, b"no line\n", &mut audits);
    assert!(&rt;
        told.as_str() == r#"3 "" "hbone: line 1: not json\n""#,
        "{told}"
    );
    assert!(&rt; audits.len() == 3, "all are left");
    for number in 10..13u32 {
        assert_untold(&rt, alloc, &audits, number);
    }
}
