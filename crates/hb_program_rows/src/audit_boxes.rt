//! Three audits of which one fails.

use hb_audit::{Audit, Audits, MemAudit};
use hb_base::{Cause, Note};
use std::alloc::Global;
use std::process::Abort;

/// The end of a tunnel, of this link.
fn end(link: u64) -> Note {
    Note::End {
        link,
        stream: 1,
        cause: Cause::Done,
        up: link,
        down: 0,
    }
}

/// An audit that holds one note already, of a number of its own.
fn audit(alloc: Global, number: u64, room: usize, fail: Option<u64>) -> MemAudit {
    let mut audit = MemAudit::new(alloc, room, fail);
    let _ = audit.note(&end(number), None);
    audit
}

/// Whether the audit at a place holds the note of its number, the four that were told, and no other.
fn holds_all<A: Audit>(audits: &Audits<A>, which: usize, number: u64) -> bool {
    audits.holds(which, 0, &end(number))
        && audits.holds(which, 1, &end(1))
        && audits.holds(which, 2, &end(2))
        && audits.holds(which, 3, &end(3))
        && audits.holds(which, 4, &end(4))
        && !audits.holds(which, 5, &end(4))
        && !audits.holds(which, 0, &end(1))
}

/// Four notes are told; an audit is dropped at the call of number `at`.
fn tell_four<A: Audit>(rt: &impl Abort, audits: &mut Audits<A>, at: u64) {
    for link in 1..5u64 {
        let dropped = audits.tell(&end(link), None);
        assert!(rt;
            dropped == usize::from(link + 1 == at),
            "{dropped} dropped at {link}, not at {at}"
        );
    }
}

/// Of three audits, of numbers 10 to 12, the one of number `which` fails at its call of number `at`; the first call has told each its
/// own note.
fn fails_once(rt: &impl Abort, alloc: Global, which: u64, at: u64) {
    let mut boxes: Vec<Box<dyn Audit>> = Vec::new(alloc);
    for number in 10..13u64 {
        let fail = if number == which { Some(at) } else { None };
        let audit = audit(alloc, number, 9, fail);
        let audit = Box::new(alloc, audit).ok().expect(rt, "memory");
        boxes.push(audit).ok().expect(rt, "memory");
    }
    let mut audits = Audits::over(boxes);
    tell_four(rt, &mut audits, at);
    let first = if which == 10 { 11 } else { 10 };
    let last = if which == 12 { 11 } else { 12 };
    assert!(rt;
        audits.len() == 2,
        "{which} fails at {at}: how many are left"
    );
    assert!(rt;
        holds_all(&audits, 0, first),
        "{which} fails at {at}: {first}"
    );
    assert!(rt;
        holds_all(&audits, 1, last),
        "{which} fails at {at}: {last}"
    );
    assert!(rt;
        !audits.holds(2, 0, &end(12)),
        "{which} fails at {at}: no third one"
    );
}

#[test]
fn one_audit_that_fails_is_dropped(rt: HostRuntime) {
    for which in 10..13u64 {
        for at in 2..6u64 {
            fails_once(&rt, rt.alloc(), which, at);
        }
    }
}

#[test]
fn an_audit_without_room_is_dropped(rt: HostRuntime) {
    let mut boxes: Vec<Box<dyn Audit>> = Vec::new(rt.alloc());
    let audit = audit(rt.alloc(), 10, 2, None);
    let audit = Box::new(rt.alloc(), audit).ok().expect(&rt, "memory");
    boxes.push(audit).ok().expect(&rt, "memory");
    let mut audits = Audits::over(boxes);
    assert!(rt;
        audits.tell(&end(1), None) == 0 && audits.len() == 1,
        "there is room"
    );
    assert!(rt;
        audits.tell(&end(2), None) == 1 && audits.len() == 0,
        "there is none"
    );
}

#[test]
fn no_audit_is_told_nothing(rt: HostRuntime) {
    let mut audits = Audits::<MemAudit>::none(rt.alloc());
    tell_four(&rt, &mut audits, 6);
    assert!(rt; audits.len() == 0, "there is none");
}
