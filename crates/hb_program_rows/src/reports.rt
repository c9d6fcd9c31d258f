//! Reports of traces without notes.

use crate::report_entries::{cut, trace_of};
use hb_base::Note;
use hb_report::{Flags, put_report, put_total};
use hb_turns::Totals;
use hb_world::Entry;
use std::alloc::Global;
use std::process::Abort;

/// The lines that are asked for, a trace, and its report without totals, each line ended by `|`. The reports are worked by hand.
const REPORTS: &str = "\
links; ; total: 0 links, 0 accepted, 0 revoked, 0 up, 0 down|
trace; ; total: 0 links, 0 accepted, 0 revoked, 0 up, 0 down|
brief; ; total: 0 links, 0 accepted, 0 revoked, 0 up, 0 down|
links; discovery 1, opened 1, went 1 hello, came 1 abc, wait, came 1 de, balked 1, closed 1 stopped; \
link 1 discovery 10.0.0.7:8080: received 5, sent 5, closed stopped|total: 0 links, 0 accepted, 0 revoked, 0 up, 0 down|
trace; discovery 1, opened 1, went 1 hello, came 1 abc, wait, tick, balked 1, ended 1, shut 1, closed 1 broken; \
dialled 1 10.0.0.7:8080|opened 1|went 1 68656c6c6f|came 1 616263|tick|ended 1|shut 1|closed 1 broken|\
link 1 discovery 10.0.0.7:8080: received 3, sent 5, closed broken|total: 0 links, 0 accepted, 0 revoked, 0 up, 0 down|
brief; discovery 1, opened 1, came 1 abc, closed 1 stopped; total: 0 links, 0 accepted, 0 revoked, 0 up, 0 down|
both; discovery 1, opened 1, came 1 abc, closed 1 stopped; total: 0 links, 0 accepted, 0 revoked, 0 up, 0 down|
trace; failed, wait; dial failed 10.0.0.7:8080|total: 0 links, 0 accepted, 0 revoked, 0 up, 0 down|
links; inbound 1, outbound 2, plain 3, closed 2 done, closed 1 front fault 0, closed 3 peer reset 8; \
link 1 inbound: received 0, sent 0, closed front fault 0|link 2 outbound: received 0, sent 0, closed done|\
link 3 plain: received 0, sent 0, closed peer reset 8|total: 0 links, 0 accepted, 0 revoked, 0 up, 0 down|
links; inbound 1, upstream 2 1/3, plain 3, relay 4 3, outbound 5, direct 6 5, gateway 7 5, came 1 ab, went 2 ab, came 4 xyz, \
went 3 xy, went 3 z, closed 1 stopped, closed 2 stopped, closed 3 stopped, closed 4 stopped, closed 5 stopped, \
closed 6 stopped, closed 7 stopped; \
link 1 inbound: received 2, sent 0, closed stopped|link 2 upstream 10.0.0.7:8080 of 1/3: received 0, sent 2, closed stopped|\
link 3 plain: received 0, sent 3, closed stopped|link 4 relay 10.0.0.7:8080 of 3: received 3, sent 0, closed stopped|\
link 5 outbound: received 0, sent 0, closed stopped|link 6 direct 10.0.0.7:8080 of 5: received 0, sent 0, closed stopped|\
link 7 gateway 10.0.0.7:8080: received 0, sent 0, closed stopped|total: 0 links, 0 accepted, 0 revoked, 0 up, 0 down|
links; plain 1, relay 2 1, closed 2 revoked, closed 1 revoked, plain 3, relay 4 3, closed 4 revoked, closed 3 done; \
link 1 plain: received 0, sent 0, closed revoked|link 2 relay 10.0.0.7:8080 of 1: received 0, sent 0, closed revoked|\
link 3 plain: received 0, sent 0, closed done|link 4 relay 10.0.0.7:8080 of 3: received 0, sent 0, closed revoked|\
total: 0 links, 0 accepted, 0 revoked, 0 up, 0 down|
links; inbound 1, came 1 a; link 1 inbound: received 1, sent 0, open|total: 0 links, 0 accepted, 0 revoked, 0 up, 0 down|
links; discovery 1, closed 1 done, closed 1 revoked; link 1 discovery 10.0.0.7:8080: received 0, sent 0, closed done|\
total: 0 links, 0 accepted, 0 revoked, 0 up, 0 down|
";

fn flags_of(words: &str) -> Flags {
    Flags {
        trace: words == "trace" || words == "both",
        brief: words == "brief" || words == "both",
    }
}

fn tell_octets(told: &mut String, octets: &[u8]) {
    for octet in octets {
        let _ = match octet {
            b'\n' => told.push('|'),
            _ => told.push(char::from(*octet)),
        };
    }
}

/// The text of the report of a trace and notes, with the totals of a run that did nothing.
pub fn report_text(
    rt: &impl Abort,
    alloc: Global,
    flags: &str,
    trace: &[Entry],
    notes: &[Note],
) -> String {
    let mut out = Vec::new(alloc);
    put_report(alloc, &flags_of(flags), trace, notes, &NOTHING, &mut out).expect(rt, "memory");
    let mut told = String::new(alloc);
    tell_octets(&mut told, out.as_slice());
    told
}

fn assert_row(rt: &impl Abort, alloc: Global, row: &str) {
    let (flags, rest) = cut(row, "; ");
    let (text, want) = cut(rest, "; ");
    let trace = trace_of(rt, alloc, text);
    let told = report_text(rt, alloc, flags, trace.as_slice(), &[]);
    assert!(rt; told.as_str() == want, "{row} told {told}");
}

#[test]
fn traces_have_the_wanted_reports(rt: HostRuntime) {
    let alloc = rt.alloc();
    for row in REPORTS.lines() {
        assert_row(&rt, alloc, row);
    }
}

/// The totals of a run that did nothing.
const NOTHING: Totals = Totals {
    links: 0,
    accepted: 0,
    revoked: 0,
    up: 0,
    down: 0,
    lacked: false,
};

/// Totals of which no two are the same.
const TOTALS: Totals = Totals {
    links: 4,
    accepted: 3,
    revoked: 2,
    up: 18_446_744_073_709_551_615,
    down: 1,
    lacked: false,
};

#[test]
fn a_report_stands_behind_what_was_there_and_has_the_totals_that_it_was_given(rt: HostRuntime) {
    let trace = trace_of(&rt, rt.alloc(), "inbound 1, closed 1 done");
    let mut out = Vec::from_slice(rt.alloc(), b"first\n").expect(&rt, "memory");
    put_report(
        rt.alloc(),
        &flags_of("links"),
        trace.as_slice(),
        &[],
        &TOTALS,
        &mut out,
    )
    .expect(&rt, "memory");
    let mut told = String::new(rt.alloc());
    tell_octets(&mut told, out.as_slice());
    assert!(rt;
        told.as_str()
            == "first|link 1 inbound: received 0, sent 0, closed done|\
total: 4 links, 3 accepted, 2 revoked, 18446744073709551615 up, 1 down|",
        "{told}"
    );
}

#[test]
fn a_total_line_stands_behind_what_was_there(rt: HostRuntime) {
    let mut out = Vec::from_slice(rt.alloc(), b"first\n").expect(&rt, "memory");
    put_total(rt.alloc(), &TOTALS, &mut out).expect(&rt, "memory");
    let mut told = String::new(rt.alloc());
    tell_octets(&mut told, out.as_slice());
    assert!(rt;
        told.as_str()
            == "first|total: 4 links, 3 accepted, 2 revoked, 18446744073709551615 up, 1 down|",
        "{told}"
    );
}
