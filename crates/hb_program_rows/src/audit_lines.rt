//! The lines of notes, into sinks that take little, that say that they take no more, and that fail.

use crate::drip::Drip;
use crate::valve::Valve;
use hb_audit::{Audit, Noted, Reason};
use hb_base::{Cause, Note, Peer, Text, read_identity, read_ip, read_target};
use hb_line_audit::{Always, LineAudit};
use std::alloc::Global;
use std::process::Abort;

/// An answer: the address of the peer, its identity and the target, both empty where there is none.
fn verdict(rt: &impl Abort, alloc: Global, status: u16, words: (&str, &str, &str)) -> Note {
    let (ip, identity, target) = words;
    Note::Verdict {
        link: 3,
        stream: 1,
        status,
        peer: Peer {
            ip: read_ip(ip.as_bytes()).expect(rt, "an address"),
            identity: read_identity(alloc, identity.as_bytes()).expect(rt, "memory"),
        },
        target: read_target(target.as_bytes()).ok(),
    }
}

fn end(cause: Cause, up: u64, down: u64) -> Note {
    Note::End {
        link: 18_446_744_073_709_551_615,
        stream: 2_147_483_647,
        cause,
        up,
        down,
    }
}

/// An audit over a sink that has room for so many bytes.
fn audit(rt: &impl Abort, alloc: Global, room: usize) -> LineAudit<Always<Drip>> {
    LineAudit::over(alloc, Always::over(Drip::new(alloc, room)))
        .ok()
        .expect(rt, "memory")
}

/// The line is written whole where the sink has room for it, and else as far as there is room; and behind a put that failed no note is
/// kept.
fn assert_line(rt: &impl Abort, alloc: Global, n: &Note, line: &str) {
    for room in 0..line.len() {
        let mut audit = audit(rt, alloc, room);
        let _ = audit.note(n, None);
        let noted = audit.note(n, None);
        assert!(rt; matches!(noted, Noted::Failed), "room for {room}: {line}");
        assert!(rt;
            audit.sink().sink().as_slice() == &line.as_bytes()[..room],
            "room for {room}: {line}"
        );
    }
    let mut audit = audit(rt, alloc, line.len());
    assert!(rt; matches!(audit.note(n, None), Noted::Kept), "{line}");
    assert!(rt; audit.sink().sink().as_slice() == line.as_bytes(), "{line}");
}

#[test]
fn answers_have_their_lines(rt: HostRuntime) {
    let alloc = rt.alloc();
    let words = ("10.0.0.9", "spiffe://td/ns/a/sa/b", "10.0.0.7:8080");
    let line = "verdict 3/1 200 10.0.0.9 td/ns/a/sa/b 10.0.0.7:8080\n";
    assert_line(&rt, alloc, &verdict(&rt, alloc, 200, words), line);
    let words = ("2001:db8::1", "", "[2001:db8::7]:443");
    let line = "verdict 3/1 403 2001:db8::1 - [2001:db8::7]:443\n";
    assert_line(&rt, alloc, &verdict(&rt, alloc, 403, words), line);
    let line = "verdict 3/1 0 ::1 - -\n";
    assert_line(&rt, alloc, &verdict(&rt, alloc, 0, ("::1", "", "")), line);
}

#[test]
fn ends_have_their_lines(rt: HostRuntime) {
    let alloc = rt.alloc();
    let line = "end 18446744073709551615/2147483647 done up 2 down 0\n";
    assert_line(&rt, alloc, &end(Cause::Done, 2, 0), line);
    let line = "end 18446744073709551615/2147483647 peer reset 8 up 0 down 18446744073709551615\n";
    assert_line(
        &rt,
        alloc,
        &end(Cause::PeerReset(8), 0, 18_446_744_073_709_551_615),
        line,
    );
}

/// Behind the line of the note stands that of its reason.
fn assert_reason(rt: &impl Abort, alloc: Global, reason: Reason<'_>, line: &str) {
    let note = verdict(rt, alloc, 401, ("10.0.0.9", "", "10.0.0.7:8080"));
    let mut want = String::from_str(alloc, "verdict 3/1 401 10.0.0.9 - 10.0.0.7:8080\n").expect(
        rt, "memory",
    );
    want.push_str(line).expect(rt, "memory");
    let mut audit = audit(rt, alloc, want.len());
    assert!(rt;
        matches!(audit.note(&note, Some(reason)), Noted::Kept),
        "{line}"
    );
    assert!(rt; audit.sink().sink().as_slice() == want.as_bytes(), "{line}");
}

#[test]
fn reasons_have_their_lines(rt: HostRuntime) {
    let alloc = rt.alloc();
    let rows = [
        ("a", "deny-all", "why 3/1 denied_by=a/deny-all\n"),
        ("", "x", "why 3/1 denied_by=/x\n"),
        ("a b", "x", "why 3/1 denied_by=\"a b/x\"\n"),
        ("a", "x\"y\\z", "why 3/1 denied_by=\"a/x\\\"y\\\\z\"\n"),
        (
            "a",
            "x\nend 1/1 done",
            "why 3/1 denied_by=\"a/x\\nend 1/1 done\"\n",
        ),
        ("a", "\u{e9}", "why 3/1 denied_by=\"a/\u{e9}\"\n"),
    ];
    for (namespace, name, line) in rows {
        let reason = Reason::DeniedBy {
            namespace: &Text::of_str(alloc, namespace).expect(&rt, "memory"),
            name: &Text::of_str(alloc, name).expect(&rt, "memory"),
        };
        assert_reason(&rt, alloc, reason, line);
    }
    assert_reason(&rt, alloc, Reason::NoneAllows(1), "why 3/1 none_allows=1\n");
    let most = Reason::NoneAllows(65_536);
    assert_reason(&rt, alloc, most, "why 3/1 none_allows=65536\n");
}

#[test]
fn lines_follow_each_other(rt: HostRuntime) {
    let alloc = rt.alloc();
    let mut audit = audit(&rt, alloc, 200);
    let _ = audit.note(&end(Cause::Revoked, 1, 2), None);
    let _ = audit.note(&end(Cause::Done, 3, 4), None);
    let line = "end 18446744073709551615/2147483647 revoked up 1 down 2\n\
end 18446744073709551615/2147483647 done up 3 down 4\n";
    assert!(rt;
        audit.sink().sink().as_slice() == line.as_bytes(),
        "two lines"
    );
}

#[test]
fn a_line_beyond_512_octets_is_written_whole(rt: HostRuntime) {
    let alloc = rt.alloc();
    let mut identity = String::from_str(alloc, "spiffe://td/ns/").expect(&rt, "memory");
    for _ in 0..100u32 {
        let _ = identity.push_str("longer");
    }
    let _ = identity.push_str("/sa/b");
    let mut line = String::from_str(alloc, "verdict 3/1 503 ::1 td/ns/").expect(&rt, "memory");
    for _ in 0..100u32 {
        let _ = line.push_str("longer");
    }
    let _ = line.push_str("/sa/b -\n");
    let words = ("::1", identity.as_str(), "");
    let note = verdict(&rt, alloc, 503, words);
    let mut audit = audit(&rt, alloc, 2000);
    assert!(rt;
        matches!(audit.note(&note, None), Noted::Kept),
        "it is kept"
    );
    assert!(rt;
        audit.sink().sink().as_slice() == line.as_bytes(),
        "it is whole"
    );
}

/// A line of 56 octets.
const LINE: &str = "end 18446744073709551615/2147483647 revoked up 1 down 2\n";

/// Audits over a sink that says so often that it takes no more, once these many notes came.
fn behind(rt: &impl Abort, alloc: Global, refusals: u64, notes: u32) -> LineAudit<Valve> {
    let sink = Valve::new(alloc, refusals);
    let mut audit = LineAudit::over(alloc, sink).ok().expect(rt, "memory");
    for _ in 0..notes {
        let noted = audit.note(&end(Cause::Revoked, 1, 2), None);
        assert!(rt; matches!(noted, Noted::Kept), "it is kept");
    }
    audit
}

#[test]
fn lines_wait_until_the_sink_takes_more(rt: HostRuntime) {
    let mut audit = behind(&rt, rt.alloc(), 3, 3);
    assert!(rt; audit.sink().as_slice().is_empty(), "none is written");
    audit.flush();
    let lines = audit.sink().as_slice();
    assert!(rt; lines.len() == 168, "three are written");
    assert!(rt;
        lines.starts_with(LINE.as_bytes()) && lines.ends_with(LINE.as_bytes()),
        "these"
    );
    assert!(rt; audit.sink().puts() == 1, "in one put");
}

/// Of 262,144 octets 4,681 lines of 56 take 262,136. For each that comes then the sink is asked twice.
#[test]
fn lines_without_room_are_counted(rt: HostRuntime) {
    let mut audit = behind(&rt, rt.alloc(), 4681 + 2 * 7, 4681 + 7);
    assert!(rt; audit.sink().as_slice().is_empty(), "none is written");
    let _ = audit.note(&end(Cause::Revoked, 1, 2), None);
    let lines = audit.sink().as_slice();
    let behind = lines.get(262_136..).unwrap_or(b"");
    let mut want = String::from_str(rt.alloc(), "hbone: 7 lines lost\n").expect(&rt, "memory");
    want.push_str(LINE).expect(&rt, "memory");
    assert!(rt;
        behind == want.as_bytes(),
        "how many were lost, and the next"
    );
    assert!(rt; lines.starts_with(LINE.as_bytes()), "those that waited");
    assert!(rt;
        audit.sink().is_whole(),
        "whole lines, of 4,096 octets at most"
    );
}
