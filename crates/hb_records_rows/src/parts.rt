//! Tables that are one text: a row a line, its fields with semicolons between, the last of which is what the row wants to be
//! told of it. A line that begins with `#` says what the next ones are.

use crate::fields::{MESSAGES, tell_message};
use crate::ips::{IPS_READ, IPS_REFUSED, PREFIXES};
use crate::streams::{READERS, WHOLE_INPUTS, WRITERS, tell_reader, tell_whole_input, tell_writer};
use crate::tables::assert_told;
use crate::texts::{
    IDENTITIES, OCTETS, PRINCIPALS, TARGETS, tell_identity_text, tell_ip_text, tell_octets,
    tell_prefixes, tell_principal, tell_target_text,
};
use std::process::Abort;

/// What the rows of a table are.
enum Kind {
    Message,
    Ip,
    Prefix,
    Octets,
    Target,
    Identity,
    Principal,
    Reader,
    Writer,
    WholeInput,
}

fn tell_row(rt: &(impl Abort + AllocGlobal), told: &mut String, kind: &Kind, row: &str) {
    match kind {
        Kind::Message => tell_message(rt, told, row),
        Kind::Ip => tell_ip_text(rt, told, row),
        Kind::Prefix => tell_prefixes(rt, told, row),
        Kind::Octets => tell_octets(rt, told, row),
        Kind::Target => tell_target_text(rt, told, row),
        Kind::Identity => tell_identity_text(rt, told, row),
        Kind::Principal => tell_principal(rt, told, row),
        Kind::Reader => tell_reader(rt, told, row),
        Kind::Writer => tell_writer(rt, told, row),
        Kind::WholeInput => tell_whole_input(rt, told, row),
    }
}

fn assert_row(rt: &(impl Abort + AllocGlobal), kind: &Kind, line: &str) {
    let (row, want) = line.rsplit_once(';').expect(rt, "a semicolon");
    let mut told = String::new(rt.alloc());
    tell_row(rt, &mut told, kind, row);
    assert_told(rt, line, told.as_str(), want);
}

/// Each row of a table tells what it wants.
fn assert_rows(rt: &(impl Abort + AllocGlobal), kind: &Kind, table: &str) {
    for line in table.lines() {
        if !line.starts_with('#') {
            assert_row(rt, kind, line);
        }
    }
}

#[test]
fn rows_tell_what_they_want(rt: HostRuntime) {
    assert_rows(&rt, &Kind::Message, MESSAGES);
    assert_rows(&rt, &Kind::Ip, IPS_READ);
    assert_rows(&rt, &Kind::Ip, IPS_REFUSED);
    assert_rows(&rt, &Kind::Prefix, PREFIXES);
    assert_rows(&rt, &Kind::Octets, OCTETS);
    assert_rows(&rt, &Kind::Target, TARGETS);
    assert_rows(&rt, &Kind::Identity, IDENTITIES);
    assert_rows(&rt, &Kind::Principal, PRINCIPALS);
    assert_rows(&rt, &Kind::Reader, READERS);
    assert_rows(&rt, &Kind::Writer, WRITERS);
    assert_rows(&rt, &Kind::WholeInput, WHOLE_INPUTS);
}
