//! Tables that are one text: a record a line, with semicolons between it, what it is written as again where the row says that,
//! and what the row wants to be told of it. A line that begins with `#` says what the next ones are.

use crate::addresses::ADDRESSES;
use crate::policies::POLICIES;
use crate::records::{Kind, tell_read, written};
use crate::repeated::{REPEATED_IN_ADDRESSES, REPEATED_IN_POLICIES};
use crate::spelled::{SPELLED_ADDRESSES, SPELLED_POLICIES};
use crate::tables::{assert_told, bytes_of};
use crate::written::{WRITTEN_ADDRESSES, WRITTEN_POLICIES};
use std::process::Abort;

/// A record that is written again is read as the same, and is written as the same bytes.
fn assert_read_again(
    rt: &(impl Abort + AllocGlobal),
    kind: &Kind,
    line: &str,
    told: &str,
    bytes: &[u8],
) {
    let mut again = String::new(rt.alloc());
    tell_read(rt, &mut again, kind, bytes);
    assert!(rt; again.as_bytes() == told.as_bytes(), "{line}: then {again}");
    let rewritten = written(rt, kind, bytes).expect(rt, "a record");
    assert!(rt;
        rewritten.as_slice() == bytes,
        "{line}: then written otherwise"
    );
}

/// The bytes are those of the row, if it says any.
fn assert_bytes(rt: &(impl Abort + AllocGlobal), line: &str, bytes: &[u8], want: Option<&str>) {
    if let Some(words) = want {
        assert!(rt;
            bytes == bytes_of(rt, words).as_slice(),
            "{line}: written {bytes:?}"
        );
    }
}

/// The record of a row, and what it is written as where the row says that.
fn record_and_written(row: &str) -> (&str, Option<&str>) {
    match row.split_once(';') {
        Some((record, written)) => (record, Some(written)),
        None => (row, None),
    }
}

fn assert_row(rt: &(impl Abort + AllocGlobal), kind: &Kind, line: &str) {
    let (row, want) = line.rsplit_once(';').expect(rt, "a semicolon");
    let (record, want_written) = record_and_written(row);
    let record = bytes_of(rt, record);
    let mut told = String::new(rt.alloc());
    tell_read(rt, &mut told, kind, record.as_slice());
    assert_told(rt, line, told.as_str(), want);
    if let Some(bytes) = written(rt, kind, record.as_slice()) {
        assert_bytes(rt, line, bytes.as_slice(), want_written);
        assert_read_again(rt, kind, line, told.as_str(), bytes.as_slice());
    }
}

/// Each row of a table tells what it wants.
fn assert_rows(rt: &(impl Abort + AllocGlobal), kind: &Kind, table: &str) {
    for line in table.lines() {
        if !line.starts_with('#') {
            assert_row(rt, kind, line);
        }
    }
}

/// The same of a table of octets, which costs the check less than a text.
fn assert_octets(rt: &(impl Abort + AllocGlobal), kind: &Kind, table: &[u8]) {
    assert_rows(rt, kind, std::str::from_utf8(table).unwrap_or("no text"));
}

#[test]
fn records_are_read_and_written_as_they_want(rt: HostRuntime) {
    assert_rows(&rt, &Kind::Address, ADDRESSES);
    assert_rows(&rt, &Kind::Policy, POLICIES);
    assert_rows(&rt, &Kind::Address, REPEATED_IN_ADDRESSES);
    assert_rows(&rt, &Kind::Policy, REPEATED_IN_POLICIES);
    assert_rows(&rt, &Kind::Address, WRITTEN_ADDRESSES);
    assert_rows(&rt, &Kind::Policy, WRITTEN_POLICIES);
    assert_octets(&rt, &Kind::Address, SPELLED_ADDRESSES);
    assert_octets(&rt, &Kind::Policy, SPELLED_POLICIES);
}
